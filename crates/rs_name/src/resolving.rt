//! Resolution of written names.

ghost use Rattle.std.specs.Prelude.{◌≡◌};
ghost use Rattle.rs_name.specs.Resolving as spec;

use rs_base::{Ident, NameText, SiteNo, Swn};

fn is_plain(text: &NameText) -> bool
    ensures { result ≡ spec.is_plain text.now }
{
    text.creator.is_none() && text.creator_site.is_none() && text.birth.is_none()
}

/// Resolves a written name to the system-wide name for `user` at `site`. A name of one identifier is the synonym, if one
/// is given. Otherwise a missing creator is the user at that site, and a missing site of the creator or of birth is that
/// site.
pub fn resolve(text: &NameText, user: Ident, site: SiteNo, synonym: Option<Swn>) -> Swn
    ensures { result ≡ spec.resolved text.now user site synonym }
{
    match synonym {
        Some(synonym) if is_plain(text) => synonym,
        _ => text.resolve(user, site),
    }
}
