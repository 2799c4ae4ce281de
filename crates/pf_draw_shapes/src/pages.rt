//! A picture as one SVG document, which names nothing outside itself.
ghost use Rattle.std.specs.Prelude.{◌≡◌, ◌++◌, IfOk, OnOk};
ghost use Rattle.std.specs.List.{flat_map};
ghost use Rattle.pf_draw_shapes.specs.Pages.{frame_svg, page_svg};
ghost use Rattle.pf_draw_shapes.specs.Shapes.{shape_svg};

use crate::Shape;
use crate::shapes::{put_two, write_shape};
use pf_base::NoMemory;
use pf_text::put_text;
use std::alloc::Global;

/// What each picture has: the title and the description, for those who do not see it, the style of each class of elements, and what
/// stands at the ends of arrows.
const FIXED: &[u8] = b"<title>A run of polarfs</title>
<desc>Time goes down. At the left stand the lines of the script, at the right what was answered; between them
each mount and each server has a lane, on which stands what happened there. An arrow is a packet.</desc>
<style>
svg{background:#fff}
text{font:11px monospace;fill:#111;stroke:#fff;stroke-width:3px;paint-order:stroke}
.n,.t{fill:#555}
.l{font-weight:bold}
path{fill:none}
.r{stroke:#ccc}
.p,.q,.x,.o,.a,.b{stroke:#26c}
.p,.q{marker-end:url(#p)}
.q{stroke-dasharray:5 3}
.x{marker-end:url(#x)}
.o{marker-end:url(#o)}
.b,.v{fill:#26c}
.c,.d{stroke:#072}
.d{fill:#072}
.e,.w{stroke:#b00;stroke-width:2}
.g,.h{stroke:#728}
.h{fill:#728}
.u{fill:#cdf;stroke:#26c}
.m{fill:#fe9;stroke:#960}
</style>
<defs>
<marker id='p' refX='6' refY='3' markerWidth='7' markerHeight='6' orient='auto'><path class='v' d='M0 0L6 3L0 6z'/></marker>
<marker id='x' refX='4' refY='4' markerWidth='8' markerHeight='8'><path class='w' d='M1 1L7 7M7 1L1 7'/></marker>
<marker id='o' refX='4' refY='4' markerWidth='8' markerHeight='8'><circle cx='4' cy='4' r='3' fill='#fff' stroke='#26c'/></marker>
</defs>
";

/// Puts the begin of a document of so many pixels.
fn put_frame(out: &mut Vec<u8>, width: u64, height: u64) -> Result<(), NoMemory>
    ensures { OnOk result (out.new.items ≡ out.old.items ++ frame_svg width height) }
{
    put_two(
        out,
        b"<svg xmlns='http://www.w3.org/2000/svg' role='img' width='",
        width,
        b"' height='",
        height,
        b"' viewBox='0 0 ",
    )?;
    put_two(out, b"", width, b" ", height, b"'>\n")
}

fn put_shapes(out: &mut Vec<u8>, shapes: &[Shape]) -> Result<(), NoMemory>
    ensures { OnOk result (out.new.items ≡ out.old.items ++ flat_map shape_svg shapes.now) }
{
    for shape in shapes {
        write_shape(out, shape)?;
    }
    Ok(())
}

/// The document of a picture of so many pixels: its head, its shapes in their order, and its end.
pub fn page(alloc: Global, width: u64, height: u64, shapes: &[Shape]) -> Result<Vec<u8>, NoMemory>
    ensures { IfOk result (λ page. page.items ≡ page_svg width height shapes.now) }
{
    let mut out = Vec::new(alloc);
    put_frame(&mut out, width, height)?;
    put_text(&mut out, FIXED)?;
    put_shapes(&mut out, shapes)?;
    put_text(&mut out, b"</svg>")?;
    Ok(out)
}
