//! The fields of a line.
ghost use Rattle.std.specs.Prelude.{◌≡◌, option_map};
ghost use Rattle.text_lines.specs.Fields.{at_space};

/// Returns the text before the first space and the text after it, or `None` if there is no space.
pub fn split_space(text: &str) -> Option<(&str, &str)>
    ensures { option_map (λ x. (x.0.now, x.1.now)) result ≡ at_space text.now }
{
    text.split_once(' ')
}
