// The commands that are the bench's own: those on lists.
ghost use Rattle.std.specs.Prelude.{◌≡◌, IfSome, IsNone};
ghost use Rattle.benchcommands.specs.Lists.{word_of};

// A command whose list stands behind its word.
#[derive(Clone, Copy, Debug, PartialEq, Eq)]
pub enum ListCommand {
    Check,
    Find,
    Crc,
    Build,
}

impl ListCommand {
    // The command of that name.
    pub fn named(word: &[u8]) -> Option<ListCommand>
        ensures found { IfSome result (λ command. word_of command ≡ word.now) }
        ensures none { IsNone result → (command : _) → ¬ (word_of command ≡ word.now) }
    {
        match word {
            b"check" => Some(ListCommand::Check),
            b"find" => Some(ListCommand::Find),
            b"crc" => Some(ListCommand::Crc),
            b"build" => Some(ListCommand::Build),
            _ => None,
        }
    }
}
