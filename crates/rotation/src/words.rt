// The words of a text, parted by gaps, one after another: each is exactly an action's name, or unknown.
ghost use Rattle.std.specs.Prelude.{◌≤◌, length};

use super::gaps::{first_gap, first_letter};

// A place of a text, from which its words are told: each the action that it names, or where it starts if it names none.
#[derive(Drop)]
pub struct Words<'a> {
    text: &'a [u8],
    at: usize,
    ghost within: { at ≤ length text.now },
}

impl<'a> Words<'a> {
    ghost use Rattle.std.specs.Prelude.{◌≡◌};
    ghost use Rattle.rotation.specs.inner.Told.{told_from, told_of};

    pub fn new(text: &'a [u8]) -> Words<'a>
        ensures { told_from result ≡ told_of text.now }
    {
        Words { text, at: 0 }
    }
}

impl<'a> Iterator for Words<'a> {
    ghost use Rattle.std.specs.Iterator.{YieldsFirst, item_count};
    ghost use Rattle.rotation.specs.inner.Told.{told_from};

    type Item = Result<u8, usize>;

    ghost next_gives = { YieldsFirst told_from };

    ghost remaining = { item_count told_from };

    #[inline(always)]
    fn next(&mut self) -> Option<Result<u8, usize>> {
        let start = self.at + first_letter(&self.text[self.at..])?;
        let rest = &self.text[start..];
        let end = start + first_gap(rest).unwrap_or(rest.len());
        self.at = end;
        Some(action::from_name(&self.text[start..end]).ok_or(start))
    }
}
