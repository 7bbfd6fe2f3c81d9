//! The head of a picture, and what explains its signs.

ghost use Rattle.std.specs.Prelude.{◌≡◌, ◌++◌, IfOk, OnOk};
ghost use Rattle.std.specs.String.{string_bytes};
ghost use Rattle.p9_map.specs.Legend.{left_out_line, left_out_words};

use crate::drawing::draw_lock;
use crate::svg::Svg;
use p9_base::NoMemory;
use std::alloc::Allocator;

/// How wide a picture is at the least.
pub(crate) const WIDTH_MIN: u64 = 860;

/// How high a line of the legend is.
const ROW: u64 = 24;

/// The style of boxes, lines and texts.
const STYLE: &str = "<style>
text{font-family:monospace;font-size:13px;fill:#000}
.title{font-weight:bold;font-size:14px}
rect{stroke:#000;fill:#fff}
.reached{fill:#d5ecd0;stroke:#1b6e1b;stroke-width:2}
.hidden{stroke-width:2}
.inside{fill:#ddd;stroke:#777;stroke-dasharray:2 2}
rect.walk{stroke:#c00000;stroke-width:3;stroke-dasharray:none}
path{fill:none}
.entry{stroke:#888;shape-rendering:crispEdges}
.member{stroke:#0b3d91;stroke-width:1.5;stroke-dasharray:6 3;marker-end:url(#head)}
.walk.entry,.walk.member{stroke:#c00000;stroke-width:3}
.walk.member{marker-end:url(#walkhead)}
.lock{fill:#000;fill-rule:evenodd;stroke:#000}
.number{font-size:11px;fill:#0b3d91;stroke:#fff;stroke-width:4;paint-order:stroke}
.note{fill:#c00000}
.badge{fill:#c00000}
.step{font-size:11px;font-weight:bold;fill:#fff;text-anchor:middle}
</style>
<defs>
<marker id=\"head\" viewBox=\"0 0 8 8\" refX=\"8\" refY=\"4\" markerWidth=\"8\" markerHeight=\"8\" markerUnits=\"userSpaceOnUse\" orient=\"auto\"><path d=\"M0 0L8 4L0 8z\" style=\"fill:#0b3d91\"/></marker>
<marker id=\"walkhead\" viewBox=\"0 0 8 8\" refX=\"8\" refY=\"4\" markerWidth=\"12\" markerHeight=\"12\" markerUnits=\"userSpaceOnUse\" orient=\"auto\"><path d=\"M0 0L8 4L0 8z\" style=\"fill:#c00000\"/></marker>
</defs>
<rect width=\"100%\" height=\"100%\" style=\"stroke:none\"/>
";

/// Begins a picture of this size.
pub(crate) fn draw_head<A: Allocator + Copy>(
    svg: &mut Svg<A>,
    width: u64,
    height: u64,
) -> Result<(), NoMemory> {
    writeln!(
        svg.text,
        "<svg xmlns=\"http://www.w3.org/2000/svg\" width=\"{width}\" height=\"{height}\" viewBox=\"0 0 {width} {height}\">"
    )?;
    svg.push(STYLE)
}

/// How high the legend is, where so many nodes have no box.
pub(crate) fn legend_height(has_breach: bool, left_out: usize) -> u64 {
    ROW * (5 + u64::from(has_breach) + u64::from(left_out > 0))
}

/// Draws what explains the signs, from this height on.
pub(crate) fn draw_legend<A: Allocator + Copy>(
    svg: &mut Svg<A>,
    top: u64,
    has_breach: bool,
) -> Result<(), NoMemory> {
    draw_sample(
        svg,
        "reached",
        top,
        "clients can reach it, as the certificate says",
    )?;
    let second = top.saturating_add(ROW);
    draw_sample(svg, "hidden", second, "a hidden directory")?;
    draw_lock(svg, 38, second.saturating_add(7))?;
    let third = second.saturating_add(ROW);
    draw_sample(svg, "inside", third, "inside a hidden directory")?;
    let fourth = third.saturating_add(ROW);
    draw_arrow(svg, fourth)?;
    if has_breach {
        draw_sample(
            svg,
            "walk",
            fourth.saturating_add(ROW),
            "the walk to what is hidden, and by which right it goes on",
        )?;
    }
    Ok(())
}

/// How high the line is that says what is left out, of a legend that begins at this height.
pub(crate) fn left_out_height(top: u64, has_breach: bool) -> u64 {
    top.saturating_add(ROW * (4 + u64::from(has_breach)) + 13)
}

/// Draws how many nodes have no box, and how many of these are marked, as a line at this height. Where
/// all have one, there is none.
pub(crate) fn draw_left_out<A: Allocator + Copy>(
    svg: &mut Svg<A>,
    y: u64,
    left_out: usize,
    marked: usize,
) -> Result<(), NoMemory>
    ensures { OnOk result (string_bytes svg.new.text
        ≡ string_bytes svg.old.text ++ left_out_line y left_out marked) }
{
    if left_out == 0 {
        return Ok(());
    }
    let text = left_out_words(*svg.text.allocator(), left_out, marked)?;
    svg.line("name", 24, y, text.as_str())
}

// How many nodes have no box, and how many of these are marked.
fn left_out_words<A: Allocator + Copy>(
    alloc: A,
    left_out: usize,
    marked: usize,
) -> Result<String<A>, NoMemory>
    ensures { IfOk result (λ text. string_bytes text ≡ left_out_words left_out marked) }
{
    if marked == 0 {
        return Ok(format!(in alloc; "{left_out} more have no box")?);
    }
    Ok(format!(in alloc;
        "{left_out} more have no box, {marked} of them mounted, mounted upon or walked"
    )?)
}

// Draws a small box of a style, and what it means.
fn draw_sample<A: Allocator + Copy>(
    svg: &mut Svg<A>,
    class: &str,
    top: u64,
    text: &str,
) -> Result<(), NoMemory> {
    writeln!(
        svg.text,
        "<rect class=\"{class}\" x=\"24\" y=\"{top}\" width=\"40\" height=\"16\"/>"
    )?;
    svg.line("name", 76, top.saturating_add(13), text)
}

// Draws a small arrow, and what it means.
fn draw_arrow<A: Allocator + Copy>(svg: &mut Svg<A>, top: u64) -> Result<(), NoMemory> {
    let middle = top.saturating_add(8);
    writeln!(svg.text, "<path class=\"member\" d=\"M24 {middle}h40\"/>")?;
    let text = "what stands there; 1, 2 and so on in a union; c: files may be created in it";
    svg.line("name", 76, top.saturating_add(13), text)
}
