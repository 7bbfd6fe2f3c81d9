//! What an input holds: a text, its sections, and the certificate and the script that they describe.

ghost use Rattle.std.specs.Prelude.{◌≡◌, IfErr, IfNone, IfOk, IfSome, Ok, false, map};
ghost use Rattle.std.specs.Prelude.{true};
ghost use Rattle.std.specs.Option.{option_copied};
ghost use Rattle.std.specs.Str.{is_utf8};
ghost use Rattle.p9_prepared.specs.Bundle.{Texts, bundle_of, bundle_view, part_view};
ghost use Rattle.p9_prepared.specs.Refusal.{IsStop, or_refused};
ghost use Rattle.p9_prepared.specs.Prepared.{certificate_in, script_in};
ghost use Rattle.p9_prepared.specs.Statements.{SameStatements};
ghost use Rattle.p9_export.specs.Event.{event_view};
ghost use Rattle.p9_prepared.specs.declared.refusal.Refusal.TheVariants.{BadSection};

use crate::bundle::{Bundle, BundleError, Part, split_bundle};
use crate::prepared::Needs;
use crate::refusal::{Refusal, Stop};
use crate::script::{ScriptError, read_script};
use p9_cert::{Certificate, ReadError, read_cert};
use p9_export::Event;
use std::alloc::Allocator;

/// The input as a text.
pub(crate) fn text(input: &[u8]) -> Option<&str>
    ensures some { IfSome result (λ text. (text.now ≡ input.now) × (is_utf8 input.now ≡ true)) }
    ensures none { IfNone result (is_utf8 input.now ≡ false) }
{
    match str::from_utf8(input) {
        Ok(text) => Some(text),
        Err(_) => None,
    }
}

/// The sections of an input, or the first line that no bundle has.
pub(crate) fn sections<A: Allocator + Copy>(alloc: A, text: &str) -> Result<Bundle<'_>, Stop>
    ensures ok { IfOk result (λ bundle. (texts : Texts)
        × (bundle_of text.now ≡ Ok texts) × SameStatements (bundle_view bundle) texts) }
    ensures stop { IfErr result (IsStop (or_refused BadSection (bundle_of text.now))) }
{
    match split_bundle(alloc, text) {
        Ok(bundle) => Ok(bundle),
        Err(BundleError::BadBundle { line }) => Err(Stop::Refused(Refusal::BadSection { line })),
        Err(BundleError::NoMemory) => Err(Stop::NoMemory),
    }
}

/// The certificate of a bundle, or its first bad line. It may be missing where it isn't needed.
pub(crate) fn certificate<A: Allocator + Copy>(
    alloc: A,
    needs: Needs,
    bundle: &Bundle<'_>,
) -> Result<Option<Certificate<A>>, Stop>
    ensures ok { IfOk result (λ certificate.
        certificate_in needs (bundle_view bundle.now).cert ≡ Ok certificate) }
    ensures stop { IfErr result (IsStop (certificate_in needs (bundle_view bundle.now).cert)) }
{
    match (needs, text_of(bundle.cert)) {
        (Needs::Nothing, None) => Ok(None),
        (Needs::Certificate, None) => Err(Stop::Refused(Refusal::NoCertificate)),
        (_, Some(text)) => match read_cert(alloc, text) {
            Ok(certificate) => Ok(Some(certificate)),
            Err(ReadError::BadCert { line }) => {
                Err(Stop::Refused(Refusal::BadCertificate { line }))
            }
            Err(ReadError::NoMemory) => Err(Stop::NoMemory),
        },
    }
}

/// The events of a bundle's script, or its first bad line.
pub(crate) fn script<A: Allocator + Copy>(
    alloc: A,
    bundle: &Bundle<'_>,
) -> Result<Vec<Event<A>, A>, Stop>
    ensures ok { IfOk result (λ events.
        script_in (bundle_view bundle.now) ≡ Ok (map event_view events.items)) }
    ensures stop { IfErr result (IsStop (script_in (bundle_view bundle.now))) }
{
    match read_script(alloc, text_of(bundle.script).unwrap_or("")) {
        Ok(events) => Ok(events),
        Err(ScriptError::BadScript { line }) => Err(Stop::Refused(Refusal::BadEvent { line })),
        Err(ScriptError::NoMemory) => Err(Stop::NoMemory),
    }
}

/// The text of a section, if it is there.
pub(crate) fn text_of(section: Option<Part<'_>>) -> Option<&str>
    ensures { option_copied result ≡ part_view section.entry }
{
    match section {
        Some(part) => Some(part.text),
        None => None,
    }
}
