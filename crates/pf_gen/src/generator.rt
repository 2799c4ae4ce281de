//! Whole scripts.
ghost use Rattle.std.specs.Prelude.{◌≡◌, IfOk};
ghost use Rattle.pf_gen.specs.Generated.{generated};
ghost use Rattle.pf_gen.specs.Draws.{next_draw};

use crate::line::put_line;
use pf_base::NoMemory;
use pf_text::put_text;
use std::alloc::Global;

/// How many lines are drawn.
const DRAWN: u64 = 2_000;

/// The number of the sequence that follows another.
fn after(number: u64) -> u64
    ensures { result ≡ next_draw number }
{
    number
        .wrapping_mul(6_364_136_223_846_793_005)
        .wrapping_add(1_442_695_040_888_963_407)
}

/// The script that a number generates: 2,004 lines, each with its line feed.
///
/// It makes a volume of 2 groups of 64 sectors. Then each of the 2,000 numbers that follow in the sequence x -> x *
/// 6364136223846793005 + 1442695040888963407 mod 2^64 draws a line: a write, a settling of 20 deliveries, or that a server
/// resends, stops, restarts or is elected. At last it settles both groups, and shows what each acknowledged.
///
/// `NoMemory` (1) where memory runs out.
pub fn script(alloc: Global, number: u64) -> Result<Vec<u8>, NoMemory>
    ensures { IfOk result (λ text. text.items ≡ generated number) }
{
    let mut out = Vec::new(alloc);
    put_text(&mut out, b"volume 2 64\n")?;
    let mut drawn = number;
    for made in 0..DRAWN {
        drawn = after(drawn);
        put_line(&mut out, drawn)?;
    }
    put_text(&mut out, b"settle 100000\nshow acked 0\nshow acked 1\n")?;
    Ok(out)
}
