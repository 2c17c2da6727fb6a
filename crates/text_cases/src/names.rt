//! Names: system-wide names, and what written names stand for.

use case_tools::{Output, Words, unescaped};
use rs_base::{NameText, NoMemory, Swn};
use rs_name::{parse_swn, resolve};

/// Appends the four parts of a name, or `none`.
fn append_parts(name: Option<Swn>, out: &mut Output) {
    let Some(name) = name else {
        out.text("none");
        return;
    };
    out.append(name.creator.as_bytes());
    out.text(" ");
    out.number(u64::from(name.creator_site.number()));
    out.text(" ");
    out.append(name.object.as_bytes());
    out.text(" ");
    out.number(u64::from(name.birth.number()));
}

/// Appends the four parts of the name that this text is, or `none`.
pub fn append_name(input: &str, out: &mut Output) -> Result<(), NoMemory> {
    let text = unescaped(out.alloc, input)?;
    append_parts(parse_swn(text.as_slice()), out);
    Ok(())
}

/// Appends the name that `CREATOR SITE OBJECT BIRTH USER SITE SYNONYM` stands for, where `-` is a part that is not
/// written.
pub fn append_resolved(words: &mut Words<'_>, out: &mut Output) {
    let text = NameText {
        creator: words.any_ident(),
        creator_site: words.any_site(),
        object: words.ident(),
        birth: words.any_site(),
    };
    let user = words.ident();
    let site = words.site();
    let synonym = parse_swn(words.next().as_bytes());
    out.name(&resolve(&text, user, site, synonym));
}
