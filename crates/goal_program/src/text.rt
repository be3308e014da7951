// Cutting texts.
ghost use Rattle.std.specs.Prelude.{◌≡◌, ◌<◌};
ghost use Rattle.std.specs.Option.{option_map};
ghost use Rattle.goal_program.specs.Texts.{cut, behind};

/// What stands before the first such character, and after it.
#[tactic(auto, using(crate::proofs::Texts::cut_is))]
pub(crate) fn cut<'a>(text: &'a str, mark: char) -> Option<(&'a str, &'a str)>
    requires { mark < 128 }
    ensures { option_map (λ e. (e.0.now, e.1.now)) result ≡ cut mark text.now }
{
    text.split_once(mark)
}

/// What stands after a front, where the text has it.
#[tactic(auto, using(crate::proofs::Texts::behind_is))]
pub(crate) fn behind<'a>(front: &str, text: &'a str) -> Option<&'a str>
    ensures { option_map (λ rest. rest.now) result ≡ behind front.now text.now }
{
    text.strip_prefix(front)
}
