ghost use Rattle.std.specs.Prelude.{◌<◌};
ghost use Rattle.rule_values.specs.Parts.{IsCutAt};

/// The text before the first `at` and the text after it, where there is one.
pub fn cut(text: &str, at: char) -> Option<(&str, &str)>
    requires { at < 128 }
    ensures { IsCutAt at text.now result }
{
    text.split_once(at)
}
