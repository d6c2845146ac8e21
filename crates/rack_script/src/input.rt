//! Standard input: a rack text, a line `%%`, and a script.

ghost use Rattle.std.specs.Prelude.{◌≡◌, ◌++◌, List, ℕ};
ghost use Rattle.rack_script.specs.Input.{parts_of};

/// Splits an input into the rack text and the script. The first line that is exactly `%%` separates them: the rack
/// text is all before it, including the line ends, and the script is all after its LF. If there is no such line, all
/// of the input is the rack text, and the script is empty.
pub fn split_input(input: &str) -> (&str, &str)
    ensures { record { rack = result.0.now; script = result.1.now } ≡ parts_of input.now }
{
    let mut rest = input;
    while let Some((line, others)) = rest.split_once('\n') {
        if line == "%%" {
            return (before(input, rest), others);
        }
        rest = others;
    }
    if rest == "%%" {
        (before(input, rest), "")
    } else {
        (input, "")
    }
}

/// Returns a text without this end.
fn before<'a>(text: &'a str, end: &str) -> &'a str
    requires { (front : List ℕ) × (text.now ≡ front ++ end.now) }
    ensures { text.now ≡ result.now ++ end.now }
{
    let (front, _) = text.split_at(text.len() - end.len());
    front
}
