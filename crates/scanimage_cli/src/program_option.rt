ghost use Rattle.std.specs.Prelude.{◌≡◌, option_map};
ghost use Rattle.scanimage_cli.specs.WordCut.{is_name_of, option_named};

/// The options of the program itself (scanimage(1)).
#[derive(Clone, Copy, Debug, PartialEq, Eq)]
pub enum ProgramOption {
    ListDevices,
    AllOptions,
    DontScan,
    DeviceName,
    OutputFile,
    Config,
    Net,
    Port,
    DialFirst,
    User,
    PasswordFile,
    Batch,
    BatchCount,
}

/// All of them.
const OPTIONS: [ProgramOption; 13] = [
    ProgramOption::ListDevices,
    ProgramOption::AllOptions,
    ProgramOption::DontScan,
    ProgramOption::DeviceName,
    ProgramOption::OutputFile,
    ProgramOption::Config,
    ProgramOption::Net,
    ProgramOption::Port,
    ProgramOption::DialFirst,
    ProgramOption::User,
    ProgramOption::PasswordFile,
    ProgramOption::Batch,
    ProgramOption::BatchCount,
];

impl ProgramOption {
    ghost use Rattle.std.specs.Prelude.{◌≡◌, option_map};
    ghost use Rattle.scanimage_cli.specs.WordCut.{long_word, short_word, is_flag};

    /// The word `--NAME`.
    pub fn long_word(self) -> &'static str
        ensures { result.now ≡ long_word self }
    {
        match self {
            ProgramOption::ListDevices => "--list-devices",
            ProgramOption::AllOptions => "--all-options",
            ProgramOption::DontScan => "--dont-scan",
            ProgramOption::DeviceName => "--device-name",
            ProgramOption::OutputFile => "--output-file",
            ProgramOption::Config => "--config",
            ProgramOption::Net => "--net",
            ProgramOption::Port => "--port",
            ProgramOption::DialFirst => "--dial-first",
            ProgramOption::User => "--user",
            ProgramOption::PasswordFile => "--password-file",
            ProgramOption::Batch => "--batch",
            ProgramOption::BatchCount => "--batch-count",
        }
    }

    /// The word of one dash and a letter, where there is one.
    pub fn short_word(self) -> Option<&'static str>
        ensures { option_map (λ word. word.now) result ≡ short_word self }
    {
        match self {
            ProgramOption::ListDevices => Some("-L"),
            ProgramOption::AllOptions => Some("-A"),
            ProgramOption::DontScan => Some("-n"),
            ProgramOption::DeviceName => Some("-d"),
            ProgramOption::OutputFile => Some("-o"),
            ProgramOption::Batch => Some("-b"),
            ProgramOption::Config
            | ProgramOption::Net
            | ProgramOption::Port
            | ProgramOption::DialFirst
            | ProgramOption::User
            | ProgramOption::PasswordFile
            | ProgramOption::BatchCount => None,
        }
    }

    /// Whether it stands alone, without a value.
    pub fn is_flag(self) -> bool
        ensures { result ≡ is_flag self }
    {
        matches!(
            self,
            ProgramOption::ListDevices
                | ProgramOption::AllOptions
                | ProgramOption::DontScan
                | ProgramOption::DialFirst
                | ProgramOption::Batch
        )
    }
}

fn is_name_of(option: ProgramOption, word: &[u8]) -> bool
    ensures { result ≡ is_name_of option word.now }
{
    if word == option.long_word().as_bytes() {
        return true;
    }
    match option.short_word() {
        Some(short) => word == short.as_bytes(),
        None => false,
    }
}

/// The option that a word names.
#[tactic(auto, unfolding(crate::specs::WordCut::option_named))]
pub fn option_named(word: &[u8]) -> Option<ProgramOption>
    ensures { result ≡ option_named word.now }
{
    for option in OPTIONS {
        if is_name_of(option, word) {
            return Some(option);
        }
    }
    None
}
