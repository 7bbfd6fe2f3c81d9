//! What boxes and lines look like.

ghost use Rattle.std.specs.Prelude.{◌≡◌, ◌++◌, OnOk};
ghost use Rattle.std.specs.String.{string_bytes};
ghost use Rattle.p9_map.specs.Box.{badge_text, box_text, circle_element, corners_of, lock_text};
ghost use Rattle.p9_map.specs.Box.{look_text, note_text, number_element, parts_text, place_text};
ghost use Rattle.p9_map.specs.Box.{rect_element, rect_text, walk_class};

use crate::item::{LinkKind, Placed};
use crate::label::{CHARACTER, Label};
use crate::line::Line;
use crate::mark::{Look, Mark};
use crate::rect::{HEIGHT, Point, Rect};
use crate::svg::Svg;
use crate::walk::Hop;
use p9_base::NoMemory;
use std::alloc::Allocator;

/// Draws a line: a thin one to what is in a directory, a dashed arrow to what is mounted there, and a
/// thick one where the walk of a breach goes there.
pub(crate) fn draw_line<A: Allocator + Copy>(
    svg: &mut Svg<A>,
    line: &Line,
    is_walk: bool,
) -> Result<(), NoMemory> {
    let class = class_of(line.link.kind, is_walk);
    let (start, end) = (line.start, line.end);
    let Line {
        out,
        across,
        into,
        ..
    } = *line;
    writeln!(
        svg.text,
        "<path class=\"{class}\" d=\"M{} {}H{out}V{across}H{into}V{}H{}\"/>",
        start.x, start.y, end.y, end.x
    )?;
    Ok(())
}

// The style of a line.
fn class_of(kind: LinkKind, is_walk: bool) -> &'static str {
    match (kind, is_walk) {
        (LinkKind::Entry, false) => "entry",
        (LinkKind::Entry, true) => "entry walk",
        (LinkKind::Member { .. }, false) => "member",
        (LinkKind::Member { .. }, true) => "member walk",
    }
}

/// Whether the walk goes along a line between boxes.
pub(crate) fn is_walked(hops: &[Hop], boxes: &[Placed], line: &Line) -> bool {
    match (boxes.get(line.link.from), boxes.get(line.link.to)) {
        (Some(from), Some(to)) => hops
            .iter()
            .any(|hop| hop.from == from.node && hop.to == to.node),
        _ => false,
    }
}

/// Draws what stands at an arrow: the member's position where there are more, and `c` where files may
/// be created in it.
pub(crate) fn draw_number<A: Allocator + Copy>(
    svg: &mut Svg<A>,
    line: &Line,
) -> Result<(), NoMemory> {
    let LinkKind::Member {
        position,
        of,
        create,
        ..
    } = line.link.kind
    else {
        return Ok(());
    };
    if of == 1 && !create {
        return Ok(());
    }
    let comes_from_the_left = line.into < line.end.x;
    let x = beside(line.end, comes_from_the_left, position);
    let y = line.end.y.saturating_add(4);
    let anchor = if comes_from_the_left {
        " text-anchor=\"end\""
    } else {
        ""
    };
    write!(
        svg.text,
        "<text class=\"number\" x=\"{x}\" y=\"{y}\"{anchor}>"
    )?;
    if of > 1 {
        write!(svg.text, "{position}")?;
    }
    svg.push(if create { "c</text>\n" } else { "</text>\n" })
}

// Where the number of an arrow stands, beside its head: four numbers side by side.
fn beside(end: Point, comes_from_the_left: bool, position: usize) -> u64 {
    let far = 11 + 20 * (position.saturating_sub(1) % 4) as u64;
    if comes_from_the_left {
        end.x.saturating_sub(far)
    } else {
        end.x.saturating_add(far)
    }
}

/// Draws a box with what it says, and a title that is shown to who points at it.
pub(crate) fn draw_box<A: Allocator + Copy, B: Allocator>(
    svg: &mut Svg<A>,
    rect: Rect,
    mark: Mark,
    title: &str,
    label: &Label<B>,
) -> Result<(), NoMemory>
    ensures { OnOk result (string_bytes svg.new.text ≡ string_bytes svg.old.text ++ box_text rect mark
        title.now (string_bytes label.now.name) (string_bytes label.now.note)) }
{
    svg.push("<g><title>")?;
    svg.words(title)?;
    svg.push("</title>\n")?;
    draw_parts(svg, rect, mark, label)?;
    svg.push("</g>\n")
}

// Draws what a box consists of.
fn draw_parts<A: Allocator + Copy, B: Allocator>(
    svg: &mut Svg<A>,
    rect: Rect,
    mark: Mark,
    label: &Label<B>,
) -> Result<(), NoMemory>
    ensures { OnOk result (string_bytes svg.new.text ≡ string_bytes svg.old.text
        ++ parts_text rect mark (string_bytes label.now.name) (string_bytes label.now.note)) }
{
    draw_rect(svg, rect, mark)?;
    draw_look(svg, mark.look, rect)?;
    let x = rect.left.saturating_add(10);
    let y = rect.top.saturating_add(15);
    svg.line("name", x, y, label.name.as_str())?;
    draw_note(svg, x, y, label)?;
    draw_badge(svg, rect, mark.number)?;
    Ok(())
}

// Draws the note of a label beside its name, which begins at a point.
fn draw_note<A: Allocator + Copy, B: Allocator>(
    svg: &mut Svg<A>,
    x: u64,
    y: u64,
    label: &Label<B>,
) -> Result<(), NoMemory>
    ensures { OnOk result (string_bytes svg.new.text ≡ string_bytes svg.old.text
        ++ note_text x y (string_bytes label.now.name) (string_bytes label.now.note)) }
{
    if label.note.is_empty() {
        return Ok(());
    }
    let width = CHARACTER.saturating_mul(label.name_len().saturating_add(1) as u64);
    svg.line("note", x.saturating_add(width), y, label.note.as_str())
}

// Draws the border of a box.
#[tactic(auto, unfolding(crate::specs::Box::rect_text))]
fn draw_rect<A: Allocator + Copy>(svg: &mut Svg<A>, rect: Rect, mark: Mark) -> Result<(), NoMemory>
    ensures { OnOk result
        (string_bytes svg.new.text ≡ string_bytes svg.old.text ++ rect_text rect mark) }
{
    let class = mark.look.class();
    let walk = walk_class(mark.number.is_some());
    let corners = corners_of(mark.is_dir);
    let width = rect.right.saturating_sub(rect.left);
    let at = Point {
        x: rect.left,
        y: rect.top,
    };
    push_rect(svg, class, walk, at, width, corners)
}

// The class of a box on the walk.
fn walk_class(is_walked: bool) -> &'static str
    ensures { result.now ≡ walk_class is_walked }
{
    if is_walked { " walk" } else { "" }
}

// The corners of a box. Those of a file are round.
fn corners_of(is_dir: bool) -> &'static str
    ensures { result.now ≡ corners_of is_dir }
{
    if is_dir { "" } else { " rx=\"9\"" }
}

// Adds a rectangle of two classes, whose upper left corner is at a point.
fn push_rect<A: Allocator + Copy>(
    svg: &mut Svg<A>,
    class: &str,
    walk: &str,
    at: Point,
    width: u64,
    corners: &str,
) -> Result<(), NoMemory>
    ensures { OnOk result (string_bytes svg.new.text ≡ string_bytes svg.old.text
        ++ rect_element class.now walk.now at.x at.y width corners.now) }
{
    svg.push("<rect class=\"")?;
    svg.push(class)?;
    svg.push(walk)?;
    svg.push("\"")?;
    push_place(svg, at.x, at.y, width)?;
    svg.push(corners)?;
    svg.push("/>\n")?;
    Ok(())
}

// Adds where a rectangle begins, and how wide and high it is.
fn push_place<A: Allocator + Copy>(
    svg: &mut Svg<A>,
    x: u64,
    y: u64,
    width: u64,
) -> Result<(), NoMemory>
    ensures { OnOk result
        (string_bytes svg.new.text ≡ string_bytes svg.old.text ++ place_text x y width) }
{
    write!(
        svg.text,
        " x=\"{x}\" y=\"{y}\" width=\"{width}\" height=\"{HEIGHT}\""
    )?;
    Ok(())
}

// Draws a lock whose body begins at a point.
pub(crate) fn draw_lock<A: Allocator + Copy>(
    svg: &mut Svg<A>,
    x: u64,
    y: u64,
) -> Result<(), NoMemory>
    ensures { OnOk result
        (string_bytes svg.new.text ≡ string_bytes svg.old.text ++ lock_text x y) }
{
    writeln!(
        svg.text,
        "<path class=\"lock\" d=\"M{x} {y}h10v8h-10zm2 0v-3a3 3 0 0 1 6 0v3\"/>"
    )?;
    Ok(())
}

// Draws the lock of a hidden directory.
fn draw_look<A: Allocator + Copy>(svg: &mut Svg<A>, look: Look, rect: Rect) -> Result<(), NoMemory>
    ensures { OnOk result
        (string_bytes svg.new.text ≡ string_bytes svg.old.text ++ look_text look rect) }
{
    match look {
        Look::Hidden => draw_lock(
            svg,
            rect.right.saturating_sub(18),
            rect.top.saturating_add(9),
        ),
        Look::Inside | Look::Reached | Look::Plain => Ok(()),
    }
}

// Draws the number of a box on the walk, if it has one, at its upper left corner.
fn draw_badge<A: Allocator + Copy>(
    svg: &mut Svg<A>,
    rect: Rect,
    number: Option<usize>,
) -> Result<(), NoMemory>
    ensures { OnOk result
        (string_bytes svg.new.text ≡ string_bytes svg.old.text ++ badge_text rect number) }
{
    let Some(number) = number else {
        return Ok(());
    };
    push_circle(svg, rect.left, rect.top)?;
    push_number(svg, rect.left, rect.top.saturating_add(4), number)
}

// Adds the circle of a number.
fn push_circle<A: Allocator + Copy>(svg: &mut Svg<A>, x: u64, y: u64) -> Result<(), NoMemory>
    ensures { OnOk result
        (string_bytes svg.new.text ≡ string_bytes svg.old.text ++ circle_element x y) }
{
    writeln!(
        svg.text,
        "<circle class=\"badge\" cx=\"{x}\" cy=\"{y}\" r=\"8\"/>"
    )?;
    Ok(())
}

// Adds the number in a circle.
fn push_number<A: Allocator + Copy>(
    svg: &mut Svg<A>,
    x: u64,
    y: u64,
    number: usize,
) -> Result<(), NoMemory>
    ensures { OnOk result
        (string_bytes svg.new.text ≡ string_bytes svg.old.text ++ number_element x y number) }
{
    writeln!(
        svg.text,
        "<text class=\"step\" x=\"{x}\" y=\"{y}\">{number}</text>"
    )?;
    Ok(())
}
