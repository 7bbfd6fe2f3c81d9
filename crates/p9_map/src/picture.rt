//! The picture of an input.

ghost use Rattle.std.specs.Prelude.{◌≡◌, ◌++◌, ℕ, AllPairs, IfOk, List, OnOk, length, map};
ghost use Rattle.std.specs.Option.{option_copied};
ghost use Rattle.std.specs.String.{string_bytes};
ghost use Rattle.p9_prepared.specs.Prepared.{prepared_of};
ghost use Rattle.p9_prepared.specs.declared.prepared.Needs.TheVariants.{Nothing};
ghost use Rattle.p9_map.specs.Box.{box_text};
ghost use Rattle.p9_map.specs.Claim.{shown_path};
ghost use Rattle.p9_map.specs.Label.{label_texts};
ghost use Rattle.p9_map.specs.Mark.{mark_of, rows_of};
ghost use Rattle.p9_map.specs.Picture.{IsDrawing, IsDrawn, IsMapped, IsPage, IsPicture};
ghost use Rattle.p9_map.specs.Picture.{boxes_text, last_text, title_text};
ghost use Rattle.p9_map.specs.Rect.{AreApart};
ghost use Rattle.p9_map.specs.Standing.{standing_text};
ghost use Rattle.p9_map.specs.Walk.{walk_in};

use crate::claim::{claim_of, shown_path};
use crate::drawing::{draw_box, draw_line, draw_number, is_walked};
use crate::item::{Item, Placed};
use crate::label::{Label, cut, labels};
use crate::layout::{ITEMS_MAX, Layout, lay_out};
use crate::legend::{
    WIDTH_MIN, draw_head, draw_left_out, draw_legend, left_out_height, legend_height,
};
use crate::link::links;
use crate::mark::Mark;
use crate::order::Spot;
use crate::plan::{Plan, plan_of};
use crate::scene::{Scene, node_set};
use crate::standing::{Standing, drawn_certificate};
use crate::svg::Svg;
use p9_base::NoMemory;
use p9_cert::{Certificate, Gap};
use p9_judge::{Verdict, judge};
use p9_prepared::status::REFUSED;
use p9_prepared::{NameSpace, Needs, PrepareError, Prepared, prepare, print_reports, print_stop};
use p9_tree::Tree;
use std::alloc::Allocator;

/// The most characters of a line of the title.
const TITLE_MAX: usize = 100;

/// Draws an input as a picture, a text of SVG that is added to `out`. Returns the exit status.
///
/// The picture says `verdict: yes` or `verdict: no`, as `check` judges. Of a yes it shows as reachable
/// what the input's certificate lists, where that is accepted, and else what the judge's lists; of a no
/// nothing. It says whether there is a certificate and whether it is accepted. Each hidden directory
/// that has a place in the picture is shown as such. Names, users and paths are shown as
/// [`p9_shown::shown`] has them.
///
/// What failed in the namespace file is reported first, and then the input's first fault, a line each to
/// `err`. Where there is a fault, nothing is drawn. The status is 0 for a yes with no certificate or one
/// that is accepted, and else 1. Where an allocation fails, it returns [`NoMemory`], and a part of the
/// picture may be there.
pub fn map<T: Tree>(
    input: &[u8],
    out: &mut Vec<u8, T::Alloc>,
    err: &mut Vec<u8, T::Alloc>,
) -> Result<u8, NoMemory>
    ensures { IfOk result (λ status. IsMapped (prepared_of Nothing input.now) status
        out.old.items out.new.items err.old.items err.new.items) }
{
    match prepare::<T>(*out.allocator(), input, Needs::Nothing) {
        Ok(prepared) => {
            let status = draw(
                space_of(&prepared),
                certificate_of(&prepared),
                prepared.gap(),
                out,
                err,
            );
            prepared.discard();
            status
        }
        Err(PrepareError { reports, stop }) => {
            print_reports(reports.as_slice(), err)?;
            print_stop(stop, err)?;
            Ok(REFUSED)
        }
    }
}

// The name space of an input that is prepared.
fn space_of<T: Tree>(prepared: &Prepared<T>) -> &NameSpace<T>
    ensures { result.now ≡ prepared.now.space }
{
    &prepared.space
}

// The certificate of an input that is prepared.
fn certificate_of<T: Tree>(prepared: &Prepared<T>) -> Option<&Certificate<T::Alloc>>
    ensures { option_copied result ≡ prepared.now.rows }
{
    prepared.certificate.as_ref()
}

// Draws a name space whose input has this certificate, if it has one, with this first gap.
fn draw<T: Tree>(
    space: &NameSpace<T>,
    given: Option<&Certificate<T::Alloc>>,
    gap: Option<Gap>,
    out: &mut Vec<u8, T::Alloc>,
    err: &mut Vec<u8, T::Alloc>,
) -> Result<u8, NoMemory>
    ensures { IfOk result (λ status. IsDrawn space.now (option_copied given.entry) gap status
        out.old.items out.new.items err.old.items err.new.items) }
{
    print_reports(space.reports.as_slice(), err)?;
    draw_judged(space, given, gap, out)
}

// Judges a name space and draws it.
fn draw_judged<T: Tree>(
    space: &NameSpace<T>,
    given: Option<&Certificate<T::Alloc>>,
    gap: Option<Gap>,
    out: &mut Vec<u8, T::Alloc>,
) -> Result<u8, NoMemory>
    ensures { IfOk result (λ status. IsPicture space.now (option_copied given.entry) gap status
        out.old.items out.new.items) }
{
    let alloc = *out.allocator();
    let standing = Standing::of(given, gap);
    let (world, table) = (&space.world, &space.table);
    match judge(alloc, world, table)? {
        Verdict::Yes(least) => {
            let reached = drawn_certificate(given, gap, &least);
            let scene = Scene::of_yes(alloc, world, table, reached);
            draw_scene(&scene, "verdict: yes", standing, out)?;
            Ok(standing.status())
        }
        Verdict::No(breach) => {
            let scene = Scene::of_no(alloc, world, table, &breach)?;
            draw_scene(&scene, "verdict: no", standing, out)?;
            Ok(REFUSED)
        }
    }
}

// Draws a scene with what is said in its title.
fn draw_scene<T: Tree>(
    scene: &Scene<'_, T>,
    verdict: &str,
    standing: Standing,
    out: &mut Vec<u8, T::Alloc>,
) -> Result<(), NoMemory>
    ensures { OnOk result ((svg : List ℕ)
        × IsPage scene.now.world.now scene.now.table.now (rows_of (option_copied scene.now.reached))
        (walk_in (option_copied scene.now.breach)) scene.now.hops.items verdict.now
        (standing_text standing) svg
        × (out.new.items ≡ out.old.items ++ svg)) }
{
    let alloc = *out.allocator();
    let world = scene.world;
    let hidden = node_set(alloc, world.hidden.as_slice())?;
    let marked = scene.marked(alloc)?;
    let plan = plan_of(alloc, &world.forest, &hidden, &marked)?;
    draw_plan(scene, verdict, standing, &plan, out)?;
    Ok(())
}

// Draws the nodes of a plan.
fn draw_plan<T: Tree>(
    scene: &Scene<'_, T>,
    verdict: &str,
    standing: Standing,
    plan: &Plan<T::Alloc>,
    out: &mut Vec<u8, T::Alloc>,
) -> Result<(), NoMemory>
    ensures { OnOk result ((svg : List ℕ)
        × IsDrawing scene.now.world.now (rows_of (option_copied scene.now.reached))
        (walk_in (option_copied scene.now.breach)) plan.now.spots.items plan.now.left_out
        plan.now.marked_left_out verdict.now (standing_text standing) svg
        × (out.new.items ≡ out.old.items ++ svg)) }
{
    let alloc = *out.allocator();
    let spots = plan.spots.as_slice();
    let labels = labels(alloc, scene, spots)?;
    let layout = laid_out(alloc, scene, spots, labels.as_slice())?;
    print_top(scene, verdict, standing, &layout, plan.left_out, out)?;
    print_middle(scene, &layout, labels.as_slice(), out)?;
    print_end(scene, &layout, plan, out)?;
    Ok(())
}

// Prints what comes before the lines: the head, the verdict, the claim and how the certificate stands.
fn print_top<T: Tree>(
    scene: &Scene<'_, T>,
    verdict: &str,
    standing: Standing,
    layout: &Layout<T::Alloc>,
    left_out: usize,
    out: &mut Vec<u8, T::Alloc>,
) -> Result<(), NoMemory>
    ensures { OnOk result ((head : List ℕ)
        × (out.new.items ≡ out.old.items
        ++ (head ++ verdict.now ++ title_text scene.now.world.now (standing_text standing)))) }
{
    let alloc = *out.allocator();
    let title = title(alloc, scene, standing)?;
    let head = head(alloc, scene, layout, left_out)?;
    print_text(&head, out)?;
    out.extend_from_slice(verdict.as_bytes())?;
    print_text(&title, out)?;
    Ok(())
}

// Prints the lines and the boxes.
fn print_middle<T: Tree>(
    scene: &Scene<'_, T>,
    layout: &Layout<T::Alloc>,
    labels: &[Label<T::Alloc>],
    out: &mut Vec<u8, T::Alloc>,
) -> Result<(), NoMemory>
    requires { length layout.now.boxes.items ≡ length labels.now }
    ensures { OnOk result ((lines : List ℕ)
        × (out.new.items ≡ out.old.items
        ++ (lines ++ boxes_text scene.now.world.now (rows_of (option_copied scene.now.reached))
        (walk_in (option_copied scene.now.breach)) layout.now.boxes.items
        (map label_texts labels.now)))) }
{
    let alloc = *out.allocator();
    let lines = lines(alloc, scene, layout)?;
    let boxes = boxes(alloc, scene, layout.boxes.as_slice(), labels)?;
    print_text(&lines, out)?;
    print_text(&boxes, out)?;
    Ok(())
}

// Prints what comes behind the boxes: the legend, and what is left out.
fn print_end<T: Tree>(
    scene: &Scene<'_, T>,
    layout: &Layout<T::Alloc>,
    plan: &Plan<T::Alloc>,
    out: &mut Vec<u8, T::Alloc>,
) -> Result<(), NoMemory>
    ensures { OnOk result ((legend : List ℕ) × (y : ℕ)
        × (out.new.items ≡ out.old.items
        ++ (legend ++ last_text y plan.now.left_out plan.now.marked_left_out))) }
{
    let alloc = *out.allocator();
    let legend = legend(alloc, scene, layout.height)?;
    let last = last(alloc, scene, layout.height, plan)?;
    print_text(&legend, out)?;
    print_text(&last, out)?;
    Ok(())
}

// Prints a part of a picture.
fn print_text<A: Allocator>(svg: &Svg<A>, out: &mut Vec<u8, A>) -> Result<(), NoMemory>
    ensures { OnOk result (out.new.items ≡ out.old.items ++ string_bytes svg.now.text) }
{
    out.extend_from_slice(svg.text.as_bytes())?;
    Ok(())
}

// The layout of boxes with these labels. Where there are more than can be laid out, an allocation fails:
// memory does not hold so many.
fn laid_out<T: Tree>(
    alloc: T::Alloc,
    scene: &Scene<'_, T>,
    spots: &[Spot],
    labels: &[Label<T::Alloc>],
) -> Result<Layout<T::Alloc>, NoMemory>
    ensures nodes { IfOk result (λ l. map (λ b. b.node) l.boxes.items
        ≡ map (λ s. s.node) spots.now) }
    ensures apart { IfOk result (λ l. AllPairs (λ a b. AreApart a.rect b.rect) l.boxes.items) }
{
    let items = items(alloc, spots, labels)?;
    if items.len() > ITEMS_MAX {
        return Err(NoMemory);
    }
    let world = scene.world;
    let links = links(alloc, &world.forest, scene.table, spots)?;
    lay_out(alloc, items.as_slice(), links.as_slice(), scene.table.len())
}

// What is laid out: the nodes with how wide their labels are.
fn items<A: Allocator + Copy>(
    alloc: A,
    spots: &[Spot],
    labels: &[Label<A>],
) -> Result<Vec<Item, A>, NoMemory>
    ensures { IfOk result (λ items. map (λ i. i.node) items.items ≡ map (λ s. s.node) spots.now) }
{
    let mut items = Vec::new(alloc);
    for (i, spot) in spots.iter().enumerate() {
        let width = labels.get(i).map_or(0, |label| label.width());
        items.push(Item {
            node: spot.node,
            depth: spot.depth,
            width,
        })?;
    }
    Ok(items)
}

// What comes before the verdict.
fn head<T: Tree>(
    alloc: T::Alloc,
    scene: &Scene<'_, T>,
    layout: &Layout<T::Alloc>,
    left_out: usize,
) -> Result<Svg<T::Alloc>, NoMemory> {
    let mut svg = Svg::new(alloc);
    let width = layout.width.max(WIDTH_MIN);
    let legend = legend_height(scene.breach.is_some(), left_out);
    draw_head(&mut svg, width, layout.height.saturating_add(legend))?;
    svg.push("<text x=\"24\" y=\"30\" class=\"title\">")?;
    Ok(svg)
}

// What comes after the verdict: the claim, and how the certificate stands.
fn title<T: Tree>(
    alloc: T::Alloc,
    scene: &Scene<'_, T>,
    standing: Standing,
) -> Result<Svg<T::Alloc>, NoMemory>
    ensures { IfOk result (λ svg.
        string_bytes svg.text ≡ title_text scene.now.world.now (standing_text standing)) }
{
    let mut svg = Svg::new(alloc);
    let claim = claim_of(alloc, scene.world)?;
    let claim = cut(alloc, claim.as_str(), TITLE_MAX)?;
    let standing = standing.text(alloc)?;
    svg.push("</text>\n")?;
    svg.line("name", 24, 52, claim.as_str())?;
    svg.line("name", 24, 74, standing.as_str())?;
    Ok(svg)
}

// The lines, with those of the walk above the others, and their numbers.
fn lines<T: Tree>(
    alloc: T::Alloc,
    scene: &Scene<'_, T>,
    layout: &Layout<T::Alloc>,
) -> Result<Svg<T::Alloc>, NoMemory> {
    let mut svg = Svg::new(alloc);
    draw_lines(&mut svg, scene, layout, false)?;
    draw_lines(&mut svg, scene, layout, true)?;
    draw_numbers(&mut svg, layout)?;
    Ok(svg)
}

// Draws the lines along which the walk goes, or all others.
fn draw_lines<T: Tree>(
    svg: &mut Svg<T::Alloc>,
    scene: &Scene<'_, T>,
    layout: &Layout<T::Alloc>,
    is_walk: bool,
) -> Result<(), NoMemory> {
    for line in layout.lines.as_slice() {
        if is_walked(scene.hops.as_slice(), layout.boxes.as_slice(), line) == is_walk {
            draw_line(svg, line, is_walk)?;
        }
    }
    Ok(())
}

// Draws the numbers of the lines.
fn draw_numbers<A: Allocator + Copy>(svg: &mut Svg<A>, layout: &Layout<A>) -> Result<(), NoMemory> {
    for line in layout.lines.as_slice() {
        draw_number(svg, line)?;
    }
    Ok(())
}

// The boxes with their labels.
fn boxes<T: Tree>(
    alloc: T::Alloc,
    scene: &Scene<'_, T>,
    boxes: &[Placed],
    labels: &[Label<T::Alloc>],
) -> Result<Svg<T::Alloc>, NoMemory>
    requires { length boxes.now ≡ length labels.now }
    ensures { IfOk result (λ svg. string_bytes svg.text
        ≡ boxes_text scene.now.world.now (rows_of (option_copied scene.now.reached))
        (walk_in (option_copied scene.now.breach)) boxes.now (map label_texts labels.now)) }
{
    let mut svg = Svg::new(alloc);
    for i in 0..boxes.len() {
        draw_node(&mut svg, scene, boxes[i], &labels[i])?;
    }
    Ok(svg)
}

// Draws the box of a node, with its path as the title.
fn draw_node<T: Tree>(
    svg: &mut Svg<T::Alloc>,
    scene: &Scene<'_, T>,
    placed: Placed,
    label: &Label<T::Alloc>,
) -> Result<(), NoMemory>
    ensures { OnOk result (string_bytes svg.new.text ≡ string_bytes svg.old.text
        ++ box_text placed.rect (mark_of scene.now.world.now (rows_of (option_copied scene.now.reached))
        (walk_in (option_copied scene.now.breach)) placed.node) (shown_path scene.now.world.now
        placed.node) (label_texts label.now).0 (label_texts label.now).1) }
{
    let title = shown_path(*svg.text.allocator(), scene.world, placed.node)?;
    let mark = Mark::of(scene, placed.node);
    draw_box(svg, placed.rect, mark, title.as_str(), label)
}

// The legend, from this height on.
fn legend<T: Tree>(
    alloc: T::Alloc,
    scene: &Scene<'_, T>,
    top: u64,
) -> Result<Svg<T::Alloc>, NoMemory> {
    let mut svg = Svg::new(alloc);
    draw_legend(&mut svg, top, scene.breach.is_some())?;
    Ok(svg)
}

// What comes last, below a legend that begins at this height: what is left out.
fn last<T: Tree>(
    alloc: T::Alloc,
    scene: &Scene<'_, T>,
    top: u64,
    plan: &Plan<T::Alloc>,
) -> Result<Svg<T::Alloc>, NoMemory>
    ensures { IfOk result (λ svg. (y : ℕ)
        × (string_bytes svg.text ≡ last_text y plan.now.left_out plan.now.marked_left_out)) }
{
    let mut svg = Svg::new(alloc);
    let y = left_out_height(top, scene.breach.is_some());
    draw_left_out(&mut svg, y, plan.left_out, plan.marked_left_out)?;
    svg.push("</svg>\n")?;
    Ok(svg)
}
