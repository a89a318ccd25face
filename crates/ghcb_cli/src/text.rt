// The program's texts.
ghost use Rattle.std.specs.Prelude.{◌≡◌};
ghost use Rattle.ghcb_cli.specs.Text.{usage as usage_text, smp_usage as smp_usage_text, line_of};

use image_file::ImageFault;
use show_text::Text;

/// The first limit or rule that the files break.
#[derive(Clone, Copy, Debug, PartialEq, Eq)]
pub enum Refused {
    /// The image file has more than 16,777,280 bytes.
    ImageLimit,
    /// The image file breaks a rule of its format, and this is the first one.
    Image(ImageFault),
    /// The input has more than 16,777,216 bytes.
    InputLimit,
    /// The script has more than 16,777,216 bytes.
    ScriptLimit,
    /// This is the number of the script's first line, from 1, that isn't sixteen hexadecimal digits and a line feed.
    ScriptLine(u64),
}

/// The usage line.
pub fn usage() -> &'static [u8]
    ensures text { result.now ≡ usage_text }
{
    b"usage: ghcb_run run|plain|hostile|live|secret|show|make\n"
}

/// The usage line of `ghcb_smp`.
pub fn smp_usage() -> &'static [u8]
    ensures text { result.now ≡ smp_usage_text }
{
    b"usage: ghcb_smp IMAGE INPUT STEPS\n"
}

impl Refused {
    /// The line that tells of the refusal.
    pub fn line(&self) -> Text
        ensures text { result ≡ line_of self.now }
    {
        let mut text = Text::new();
        text.push_str("refused ");
        match self {
            Refused::ImageLimit => text.push_str("image limit"),
            Refused::Image(fault) => text.push_number("image ", u64::from(fault.number())),
            Refused::InputLimit => text.push_str("input limit"),
            Refused::ScriptLimit => text.push_str("script limit"),
            Refused::ScriptLine(line) => text.push_number("script line ", *line),
        }
        text.push_str("\n");
        text
    }
}
