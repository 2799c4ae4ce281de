//! Laws of the runs of accepted scripts.
ghost use Rattle.std.specs.Prelude.{◌≡◌, ◌^◌, ◌<◌, false, suc, length};
ghost use Rattle.pf_entry.specs.Lists.{Every};
ghost use Rattle.pf_world.specs.Headline.{IsLawfulRun, is_live};
ghost use Rattle.pf_world.specs.Lines.{is_raw};
ghost use Rattle.pf_world.specs.declared.line.Line.{Line as LineIs};
ghost use Rattle.pf_law_mounts.specs.Lists.{HasOneList};
ghost use Rattle.pf_law_legal.specs.Accepted.{OfAcceptedRuns};

/// The run of an accepted script is lawful, under whatever halts and sessions, whether or not a program ever ran it: the history of each group is
/// legal, the group stands where it leads, and every law of groups holds of it. So it is where the run is of mounts, in which no threads do
/// anything, and where no line is live.
pub fn accepted_runs_are_lawful()
    ensures mounts { OfAcceptedRuns (λ _ run. is_raw run.world.kind ≡ false → IsLawfulRun run.world) }
    ensures dead { OfAcceptedRuns (λ lines run. Every (λ (line : LineIs). is_live line.command ≡ false) lines → IsLawfulRun run.world) }
{}

/// With a mount it has one list of transactions, and what else is said of mounts holds of it (`runs_have_one_list` of pf_law_mounts, which asks for
/// lawful groups).
pub fn accepted_runs_have_one_list()
    ensures { OfAcceptedRuns (λ lines run.
        suc (length lines) < 2 ^ 32 → 0 < length run.world.volume.hosts → HasOneList run.world.volume run.told) }
{}
