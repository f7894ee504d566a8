// The words of the command line.
ghost use Rattle.std.specs.Prelude.{◌≡◌, ◌≢◌, IfSome, IfNone, MatchOption};
ghost use Rattle.vdplay.specs.CommandLine.{IsFileName, IsLine, IsNoLine, texts, word_of};

/// What a line of the grammar asks for.
#[derive(Clone, Copy, Debug, PartialEq, Eq)]
pub enum Command {
    /// A file's pictures as planes of samples.
    Decode,
    /// A line for each picture of a file.
    Inspect,
}

// The command and the file that the words name, or nothing where they are no line of the grammar.
pub fn command_in(words: &[String]) -> Option<(Command, &str)>
    ensures line { IfSome result (λ line. IsLine (texts words.now) line.0 line.1.now) }
    ensures none { IfNone result (IsNoLine (texts words.now)) }
{
    let [command, file] = words else {
        return None;
    };
    let file = file.as_str();
    let Some(command) = command_of(command.as_str()) else {
        return None;
    };
    if file.is_empty() || file.as_bytes()[0] == b'-' {
        return None;
    }
    Some((command, file))
}

// The command that a word asks for.
fn command_of(word: &str) -> Option<Command>
    ensures word { IfSome result (λ command. word.now ≡ word_of command) }
    ensures none { IfNone result ((command : Command) → word.now ≢ word_of command) }
{
    match word {
        "decode" => Some(Command::Decode),
        "inspect" => Some(Command::Inspect),
        _ => None,
    }
}
