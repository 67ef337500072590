//! The text of a name.
ghost use Rattle.std.specs.Prelude.{IsNone, IsTrue};
ghost use Rattle.round_lang.specs.Keywords.{keyword};
ghost use Rattle.round_lang.specs.Tokens.{is_name};

/// The text of a name, which may have any length yet.
#[derive(Clone, Copy, Debug)]
pub struct Name<'a> {
    pub text: &'a str,
    ghost spelt: { IsTrue (is_name text.now) },
    ghost no_keyword: { IsNone (keyword text.now) },
}
