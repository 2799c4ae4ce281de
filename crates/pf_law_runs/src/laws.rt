//! Laws of the run of every script, with any list of halts, wherever its journal lies.
ghost use Rattle.std.specs.Prelude.{◌≡◌, ℕ, ◌<◌, ◌≤◌, ◌++◌, ◌∷◌, List, Some, length, slice_get};
ghost use Rattle.pf_asks.specs.Ports.{PortIs};
ghost use Rattle.pf_world.specs.pf_chunk.specs.Runs.{ChunkRun, most_ports};
ghost use Rattle.pf_world.specs.pf_world_moments.specs.Moments.{Hands, Moment};
ghost use Rattle.pf_move.specs.declared.mover.MoverAsk.{MoverAsk};
ghost use Rattle.pf_move.specs.declared.routes.Route.{Route};
ghost use Rattle.pf_law_movers.specs.Movers.{AreMoves};
ghost use Rattle.pf_law_movers.specs.Epochs.{group_of_epoch, home_of_group, group_of_now};
ghost use Rattle.pf_law_movers.specs.Handing.{AreMountsAlone, reached};
ghost use Rattle.pf_law_movers.specs.Pasts.{mover_trace, past_in};
ghost use Rattle.pf_law_movers.specs.pf_law_ports.specs.Driven.{IsDriven};
ghost use Rattle.pf_law_runs.specs.Scripts.{OfRuns};
ghost use Rattle.pf_world.specs.Headline.{IsLawfulRun};
ghost use Rattle.pf_world.specs.declared.kind.Kind.TheVariants.{Mounted};

/// Each port of a mover did, in the order in which it was told, what a port does whose steps find no event of anybody else between their calls:
/// in the move for which its group was made, and in the one away from it. So it follows the rule of ports in every legal history of its group, and
/// each reply is the group's answer to the last time that it handed on the ask.
pub fn movers_of_runs_are_driven()
    ensures { OfRuns (λ _ run.
        (k : ℕ) (role : MoverAsk) (c : ChunkRun) → slice_get run.world.volume.chunks k ≡ Some c
        → (port : PortIs)
        × IsDriven c.group.setup (past_in c.group.history (mover_trace c.group.history k role run.world.volume.extent.chunks run.told)) port) }
{}

/// The routes of a run are what it told: each chunk is served by the group of its epoch, and a chunk that is moving has its asks at the next
/// one. No group has two chunks.
pub fn routes_are_told()
    ensures served { OfRuns (λ _ run.
        let v = run.world.volume in (chunk : ℕ) (route : Route) → slice_get v.routes.routes chunk ≡ Some route
        → group_of_now run.told chunk ≡ Some route.group) }
    ensures apart { OfRuns (λ _ run.
        let count = run.world.volume.extent.chunks in (chunk epoch group : ℕ) → chunk < count → group_of_epoch run.told chunk epoch ≡ Some group
        → home_of_group count run.told group ≡ Some (record { chunk = chunk; epoch = epoch })) }
{}

/// In a lawful run what is told of moves is so: a chunk moves to groups of its own; the mover's calls follow each other, each reply that it hears
/// is its group's, and its ports were driven as was told.
pub fn moves_are_told()
    ensures { OfRuns (λ _ run.
        IsLawfulRun run.world → AreMoves run.world.volume.extent run.world.volume.chunks run.told) }
{}

/// Each event by which a port was told to hand an ask on lies behind all of the group's history that was told of before. In a run with mounts no
/// write but those that ports handed on is submitted to a group. No more is told of a history than there is.
pub fn what_is_handed_on_is_told()
    ensures behind { OfRuns (λ _ run.
        (before after : List Moment) (m k place : ℕ) → run.told ≡ before ++ Hands m k place ∷ after → reached k before ≤ place) }
    ensures alone { OfRuns (λ _ run.
        run.world.kind ≡ Some Mounted → AreMountsAlone run.world.volume.chunks run.told) }
    ensures reached { OfRuns (λ _ run.
        (k : ℕ) (c : ChunkRun) → slice_get run.world.volume.chunks k ≡ Some c → reached k run.told ≤ length c.group.history) }
{}

/// Each group has as many ports as there can be mounts, and that of the mover.
pub fn each_group_has_its_ports()
    ensures { OfRuns (λ _ run.
        (k : ℕ) (c : ChunkRun) → slice_get run.world.volume.chunks k ≡ Some c → length c.ports ≡ most_ports) }
{}
