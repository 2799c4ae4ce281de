//! Laws of positions whose halves are known apart.
ghost use Rattle.std.specs.Prelude.{List};
ghost use Rattle.pf_paxos.specs.Registers.{AreRegisters, Turn};
ghost use Rattle.pf_law_halves.specs.Halves.{IsOfHalves};

/// Where the blocks of each half are registers, by a history of this half alone, those of the position are.
pub fn halves_are_registers()
    ensures { (whole low high : List Turn) → IsOfHalves whole low high → AreRegisters low → AreRegisters high → AreRegisters whole }
{}
