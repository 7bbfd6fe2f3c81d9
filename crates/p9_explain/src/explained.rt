//! An input explained.

ghost use Rattle.std.specs.Prelude.{◌≡◌, ◌++◌, ℕ, IfOk, List, OnErr};
ghost use Rattle.std.specs.String.{string_bytes};
ghost use Rattle.p9_prepared.specs.Prepared.{prepared_of};
ghost use Rattle.p9_prepared.specs.declared.prepared.Needs.TheVariants.{Nothing};
ghost use Rattle.p9_explain.specs.Change.{IsKindTold, IsReachTold, directories, reach_text};
ghost use Rattle.p9_explain.specs.Claim.{claim_text};
ghost use Rattle.p9_explain.specs.Explained.{IsExplained, IsFurtherTold, IsRefusal, IsRefusalTold};
ghost use Rattle.p9_explain.specs.Explained.{IsRestTold, IsVerdict, IsVerdictTold, yes_status};

use crate::breach::breach_words;
use crate::certificate::certificate_words;
use crate::change::change_words;
use crate::claim::push_claim;
use crate::faults::push_faults;
use crate::free::push_free;
use crate::hints::{push_hints, push_unneeded_rows};
use crate::leaks::other_leaks;
use crate::member::hidden_dir;
use crate::source::{Source, numbered_source};
use crate::teller::{Teller, push};
use p9_base::{NoMemory, NodeRef};
use p9_cert::{Certificate, Gap};
use p9_fixed::first_change;
use p9_judge::{Verdict, judge};
use p9_prepared::status::{DONE, REFUSED};
use p9_prepared::{NameSpace, Needs, Prepared, Refusal, Stop, prepare};
use p9_tree::Tree;
use std::alloc::Allocator;

/// Explains an input to a person who has never seen a certificate, and returns the exit status. The
/// lines are appended to `out`; they name the input by `name`, and its lines by their numbers in it.
/// What names of the input have that no terminal should get is escaped.
///
/// First is what is claimed: which listed users neither see nor change what is inside which hidden
/// directories. Then:
///
/// - `yes`, with the number of directories that clients can reach. The line after it says that the name
///   space is `fixed`, where no listed user can change anything that listed users come to, and else
///   that it is `changeable`, with what one of them can change. The status is 0 where the input has no
///   certificate, or one that is accepted, and 1 where its certificate has a gap.
/// - `no`, with a walk to what is hidden, line by line, and how to mend it; and for each further hidden
///   directory that is within reach the same, after `also`. The status is 1.
///
/// What is said of the input's own certificate follows: that it is accepted, or its first gap in words;
/// and hints, each with its line. Where the input has a fault there is none of this: the first is
/// reported as [`Refusal::text`](p9_prepared::Refusal::text) says, and all bad lines are listed, each
/// with what was expected there. The status is 1.
///
/// Where an allocation fails, it returns [`NoMemory`], and `out` is as before.
pub fn explain<T: Tree>(
    name: &str,
    input: &[u8],
    out: &mut Vec<u8, T::Alloc>,
) -> Result<u8, NoMemory>
    ensures ok { IfOk result (λ status. IsExplained (prepared_of Nothing input.now) status
        out.old.items out.new.items) }
    ensures no_memory { OnErr result (out.new.items ≡ out.old.items) }
{
    match prepare::<T>(*out.allocator(), input, Needs::Nothing) {
        Ok(prepared) => explain_prepared(name, input, prepared, out),
        Err(error) => explain_refusal::<T>(name, input, error.stop, out),
    }
}

// Says why an input is refused.
fn explain_refusal<T: Tree>(
    name: &str,
    input: &[u8],
    stop: Stop,
    out: &mut Vec<u8, T::Alloc>,
) -> Result<u8, NoMemory>
    ensures ok { IfOk result (λ status. IsRefusalTold stop status out.old.items out.new.items) }
    ensures no_memory { OnErr result (out.new.items ≡ out.old.items) }
{
    match stop {
        Stop::Refused(refusal) => {
            let text = refusal_words::<T>(*out.allocator(), name, input, refusal)?;
            out.extend_from_slice(text.as_bytes())?;
            Ok(REFUSED)
        }
        Stop::NoMemory => Err(NoMemory),
    }
}

// Explains an input that is prepared.
fn explain_prepared<T: Tree>(
    name: &str,
    input: &[u8],
    prepared: Prepared<T>,
    out: &mut Vec<u8, T::Alloc>,
) -> Result<u8, NoMemory>
    ensures ok { IfOk result (λ status. (text : List ℕ) × IsVerdictTold prepared status text
        × (out.new.items ≡ out.old.items ++ text)) }
    ensures no_memory { OnErr result (out.new.items ≡ out.old.items) }
{
    let told = told_of(*out.allocator(), name, input, prepared)?;
    out.extend_from_slice(told.text.as_bytes())?;
    Ok(told.status)
}

// What is said of an input: the exit status, the text, and the hidden directory that leaks, if one does.
#[derive(Drop)]
struct Told<A: Allocator> {
    status: u8,
    text: String<A>,
    leak: Option<NodeRef>,
}

// What is said of an input that is prepared.
fn told_of<T: Tree>(
    alloc: T::Alloc,
    name: &str,
    input: &[u8],
    prepared: Prepared<T>,
) -> Result<Told<T::Alloc>, NoMemory>
    ensures { IfOk result (λ told. IsVerdictTold prepared told.status (string_bytes told.text)) }
{
    let source = numbered_source::<T>(alloc, name, str::from_utf8(input).unwrap_or(""))?;
    let mut told = tell(alloc, &source, &prepared)?;
    let rest = rest_of(alloc, &source, prepared, told.leak)?;
    told.text.push_str(rest.as_str())?;
    Ok(told)
}

// What follows the verdict, which names this leak.
fn rest_of<T: Tree>(
    alloc: T::Alloc,
    source: &Source<'_, T::Alloc>,
    prepared: Prepared<T>,
    leak: Option<NodeRef>,
) -> Result<String<T::Alloc>, NoMemory>
    ensures { IfOk result (λ text. IsRestTold prepared (string_bytes text)) }
{
    let further = further_words(alloc, source, &prepared)?;
    let leaks = leaks_said(alloc, source, prepared, leak)?;
    let mut text = String::new(alloc);
    push_free(leaks.as_str(), &mut text)?;
    push(&mut text, further.as_str())?;
    Ok(text)
}

// What is said of the hidden directories that leak beside the one that the verdict names.
fn leaks_said<T: Tree>(
    alloc: T::Alloc,
    source: &Source<'_, T::Alloc>,
    prepared: Prepared<T>,
    leak: Option<NodeRef>,
) -> Result<String<T::Alloc>, NoMemory> {
    match leak {
        Some(dir) => {
            let Prepared {
                space,
                certificate: _,
                events: _,
            } = prepared;
            other_leaks(alloc, source, space, dir)
        }
        None => {
            prepared.discard();
            Ok(String::new(alloc))
        }
    }
}

// The claim of a prepared input, and the verdict over its name space.
fn tell<T: Tree>(
    alloc: T::Alloc,
    source: &Source<'_, T::Alloc>,
    prepared: &Prepared<T>,
) -> Result<Told<T::Alloc>, NoMemory>
    ensures { IfOk result (λ told.
        IsVerdict prepared.now told.status (string_bytes told.text)) }
{
    let mut claim = String::new(alloc);
    push_claim(&mut claim, &prepared.space.world)?;
    verdict_told(alloc, source, prepared, claim.as_str())
}

// A claim, and the verdict over a name space.
fn verdict_told<T: Tree>(
    alloc: T::Alloc,
    source: &Source<'_, T::Alloc>,
    prepared: &Prepared<T>,
    claim: &str,
) -> Result<Told<T::Alloc>, NoMemory>
    requires { claim.now ≡ claim_text prepared.now.space.world }
    ensures { IfOk result (λ told.
        IsVerdict prepared.now told.status (string_bytes told.text)) }
{
    let space = &prepared.space;
    match judge(alloc, &space.world, &space.table)? {
        Verdict::Yes(least) => {
            let words = yes_words(alloc, source, prepared, &least);
            drop(least);
            let words = words?;
            Ok(Told {
                status: yes_status(prepared.gap()),
                text: format!(in alloc; "{claim}yes: {words}")?,
                leak: None,
            })
        }
        Verdict::No(breach) => {
            let words = breach_words(alloc, source, &space.world, &breach);
            let leak = hidden_dir(&space.world, breach.member);
            drop(breach);
            let words = words?;
            Ok(Told {
                status: REFUSED,
                text: format!(in alloc; "{claim}no: {words}")?,
                leak: Some(leak),
            })
        }
    }
}

// The exit status of a yes, where the input's own certificate has this gap.
fn yes_status(gap: Option<Gap>) -> u8
    ensures { result ≡ yes_status gap }
{
    match gap {
        None => DONE,
        Some(_) => REFUSED,
    }
}

// What follows a yes: how many directories clients can reach, what they can change, and hints.
fn yes_words<T: Tree>(
    alloc: T::Alloc,
    source: &Source<'_, T::Alloc>,
    prepared: &Prepared<T>,
    least: &Certificate<T::Alloc>,
) -> Result<String<T::Alloc>, NoMemory>
    ensures { IfOk result (λ text.
        IsReachTold prepared.now.space least.now (string_bytes text)) }
{
    let reach = reach_words(alloc, least.rows().len())?;
    let kind = kind_words(alloc, source, &prepared.space, least)?;
    let said = rows_said(alloc, source, prepared.certificate.as_ref(), least)?;
    let mut hints = String::new(alloc);
    push_free(said.as_str(), &mut hints)?;
    Ok(format!(in alloc; "{reach}{kind}{hints}")?)
}

// What is said of the rows of a certificate, if there is one, that are not in the least one.
fn rows_said<A: Allocator + Copy>(
    alloc: A,
    source: &Source<'_, A>,
    certificate: Option<&Certificate<A>>,
    least: &Certificate<A>,
) -> Result<String<A>, NoMemory> {
    let mut said = String::new(alloc);
    if let Some(certificate) = certificate {
        push_unneeded_rows(&mut said, source, certificate, least)?;
    }
    Ok(said)
}

// How many directories clients can reach.
fn reach_words<A: Allocator + Copy>(alloc: A, count: usize) -> Result<String<A>, NoMemory>
    ensures { IfOk result (λ text. string_bytes text ≡ reach_text count) }
{
    let directories = directories(count);
    Ok(format!(in alloc; "clients can reach {count}{directories}, and nothing hidden\n")?)
}

// What follows the number of directories.
fn directories(count: usize) -> &'static str
    ensures { result.now ≡ directories count }
{
    if count == 1 {
        " directory"
    } else {
        " directories"
    }
}

// Whether a name space is fixed, by its least certificate, or what can be changed first.
fn kind_words<T: Tree>(
    alloc: T::Alloc,
    source: &Source<'_, T::Alloc>,
    space: &NameSpace<T>,
    least: &Certificate<T::Alloc>,
) -> Result<String<T::Alloc>, NoMemory>
    ensures { IfOk result (λ text. IsKindTold space.now least.now (string_bytes text)) }
{
    let world = &space.world;
    match first_change(alloc, world, &space.table, least)? {
        None => Ok(String::from_str(
            alloc,
            "fixed: no listed user can change anything that he reaches\n",
        )?),
        Some(change) => {
            let words = change_words(alloc, source, world, &change)?;
            Ok(format!(in alloc; "changeable: {words}")?)
        }
    }
}

// What follows the verdict: what is said of the input's certificate, and hints.
fn further_words<T: Tree>(
    alloc: T::Alloc,
    source: &Source<'_, T::Alloc>,
    prepared: &Prepared<T>,
) -> Result<String<T::Alloc>, NoMemory>
    ensures { IfOk result (λ text. IsFurtherTold prepared.now (string_bytes text)) }
{
    let space = &prepared.space;
    let world = &space.world;
    let teller = Teller { source, world };
    let gap = prepared.gap();
    let mut text = certificate_words(&teller, alloc, prepared.certificate.as_ref(), gap)?;
    let mut said = String::new(alloc);
    push_hints(&mut said, &teller, &space.table, space.reports.as_slice())?;
    push_free(said.as_str(), &mut text)?;
    Ok(text)
}

// What is said of an input that has a fault.
fn refusal_words<T: Tree>(
    alloc: T::Alloc,
    name: &str,
    input: &[u8],
    refusal: Refusal,
) -> Result<String<T::Alloc>, NoMemory>
    ensures { IfOk result (λ text. IsRefusal refusal (string_bytes text)) }
{
    let reason = refusal.text(alloc)?;
    let faults = faults_said::<T>(alloc, name, input)?;
    Ok(format!(in alloc; "refused: {reason}\n{faults}")?)
}

// What is said of the bad lines of an input.
fn faults_said<T: Tree>(
    alloc: T::Alloc,
    name: &str,
    input: &[u8],
) -> Result<String<T::Alloc>, NoMemory> {
    let mut said = String::new(alloc);
    if let Ok(input) = str::from_utf8(input) {
        push_faults::<T>(&mut said, &Source::of(alloc, name, input)?)?;
    }
    Ok(said)
}
