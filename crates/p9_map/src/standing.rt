//! How the certificate of an input stands.

ghost use Rattle.std.specs.Prelude.{◌≡◌, IfOk};
ghost use Rattle.std.specs.Option.{option_copied};
ghost use Rattle.std.specs.String.{string_bytes};
ghost use Rattle.p9_map.specs.Standing.{drawn_rows, standing_of, standing_status, standing_text};

use p9_cert::{Certificate, Gap};
use p9_prepared::status::{DONE, REFUSED};
use std::alloc::{AllocError, Allocator};

/// How the certificate of an input stands.
#[derive(Clone, Copy)]
pub(crate) enum Standing {
    /// There is none.
    Missing,
    /// It is accepted.
    Accepted,
    /// It is not accepted, and this is its first gap.
    Gap(Gap),
}

impl Standing {
    /// How a certificate stands, if there is one, that has this first gap.
    pub fn of<A: Allocator>(given: Option<&Certificate<A>>, gap: Option<Gap>) -> Standing
        ensures { result ≡ standing_of (option_copied given.entry) gap }
    {
        match (given, gap) {
            (None, _) => Standing::Missing,
            (Some(_), None) => Standing::Accepted,
            (Some(_), Some(gap)) => Standing::Gap(gap),
        }
    }

    /// The line that says so.
    pub fn text<A: Allocator + Copy>(self, alloc: A) -> Result<String<A>, AllocError>
        ensures { IfOk result (λ text. string_bytes text ≡ standing_text self) }
    {
        match self {
            Standing::Missing => String::from_str(alloc, "certificate: none"),
            Standing::Accepted => String::from_str(alloc, "certificate: accepted"),
            Standing::Gap(gap) => format!(in alloc; "certificate: {gap}"),
        }
    }

    /// The exit status of a yes.
    pub fn status(self) -> u8
        ensures { result ≡ standing_status self }
    {
        match self {
            Standing::Missing | Standing::Accepted => DONE,
            Standing::Gap(_) => REFUSED,
        }
    }
}

/// The certificate that is drawn of a yes: the input's where it is accepted, and else the judge's.
pub(crate) fn drawn_certificate<'a, A: Allocator>(
    given: Option<&'a Certificate<A>>,
    gap: Option<Gap>,
    least: &'a Certificate<A>,
) -> &'a Certificate<A>
    ensures { result.now ≡ drawn_rows (option_copied given.entry) gap least.now }
{
    match (given, gap) {
        (Some(given), None) => given,
        _ => least,
    }
}
