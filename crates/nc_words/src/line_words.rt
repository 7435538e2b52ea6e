//! The pieces of the lines that a refused run writes. Contracts see each as a word.
ghost use Rattle.std.specs.Prelude.{◌≡◌};
ghost use Rattle.nc_words.specs.Notes as meant;

use nc_yang_statements::ModuleWhy;

#[tactic(auto, unfolding(crate::specs::Notes::words_line))]
pub(crate) fn words_line() -> &'static str
    ensures { result.now ≡ meant.words_line }
{
    "netconfd: words\n"
}

#[tactic(auto, unfolding(crate::specs::Notes::files_line))]
pub(crate) fn files_line() -> &'static str
    ensures { result.now ≡ meant.files_line }
{
    "netconfd: files failed\n"
}

#[tactic(auto, unfolding(crate::specs::Notes::memory_line))]
pub(crate) fn memory_line() -> &'static str
    ensures { result.now ≡ meant.memory_line }
{
    "netconfd: memory\n"
}

#[tactic(auto, unfolding(crate::specs::Notes::input_line))]
pub(crate) fn input_line() -> &'static str
    ensures { result.now ≡ meant.input_line }
{
    "netconfd: input failed\n"
}

#[tactic(auto, unfolding(crate::specs::Notes::output_line))]
pub(crate) fn output_line() -> &'static str
    ensures { result.now ≡ meant.output_line }
{
    "netconfd: output failed\n"
}

#[tactic(auto, unfolding(crate::specs::Notes::spent_line))]
pub(crate) fn spent_line() -> &'static str
    ensures { result.now ≡ meant.spent_line }
{
    "netconfd: spent\n"
}

#[tactic(auto, unfolding(crate::specs::Notes::bad_hello_line))]
pub(crate) fn bad_hello_line() -> &'static str
    ensures { result.now ≡ meant.bad_hello_line }
{
    "netconfd: session: BadHello\n"
}

#[tactic(auto, unfolding(crate::specs::Notes::bad_frame_word))]
pub(crate) fn bad_frame_word() -> &'static str
    ensures { result.now ≡ meant.bad_frame_word }
{
    "netconfd: session: BadFrame at "
}

#[tactic(auto, unfolding(crate::specs::Notes::too_big_word))]
pub(crate) fn too_big_word() -> &'static str
    ensures { result.now ≡ meant.too_big_word }
{
    "netconfd: session: TooBig at "
}

#[tactic(auto, unfolding(crate::specs::Notes::malformed_word))]
pub(crate) fn malformed_word() -> &'static str
    ensures { result.now ≡ meant.malformed_word }
{
    "netconfd: session: Malformed at "
}

#[tactic(auto, unfolding(crate::specs::Notes::modules_word))]
pub(crate) fn modules_word() -> &'static str
    ensures { result.now ≡ meant.modules_word }
{
    "netconfd: modules: "
}

#[tactic(auto, unfolding(crate::specs::Notes::line_word))]
pub(crate) fn line_word() -> &'static str
    ensures { result.now ≡ meant.line_word }
{
    " line "
}

#[tactic(auto, unfolding(crate::specs::Notes::colon_word))]
pub(crate) fn colon_word() -> &'static str
    ensures { result.now ≡ meant.colon_word }
{
    ": "
}

#[tactic(auto, unfolding(crate::specs::Notes::features_word))]
pub(crate) fn features_word() -> &'static str
    ensures { result.now ≡ meant.features_word }
{
    "netconfd: features: line "
}

#[tactic(auto, unfolding(crate::specs::Notes::unread_word))]
pub(crate) fn unread_word() -> &'static str
    ensures { result.now ≡ meant.unread_word }
{
    "netconfd: initial: not read at "
}

#[tactic(auto, unfolding(crate::specs::Notes::initial_word))]
pub(crate) fn initial_word() -> &'static str
    ensures { result.now ≡ meant.initial_word }
{
    "netconfd: initial: "
}

#[tactic(auto, unfolding(crate::specs::Notes::damaged_word))]
pub(crate) fn damaged_word() -> &'static str
    ensures { result.now ≡ meant.damaged_word }
{
    "netconfd: store: damaged at "
}

#[tactic(auto, unfolding(crate::specs::Notes::other_modules_word))]
pub(crate) fn other_modules_word() -> &'static str
    ensures { result.now ≡ meant.other_modules_word }
{
    "netconfd: store: other modules at "
}

#[tactic(auto, unfolding(crate::specs::Notes::disk_line))]
pub(crate) fn disk_line() -> &'static str
    ensures { result.now ≡ meant.disk_line }
{
    "netconfd: disk failed\n"
}

#[tactic(auto, unfolding(crate::specs::Notes::listener_line))]
pub(crate) fn listener_line() -> &'static str
    ensures { result.now ≡ meant.listener_line }
{
    "netconfd: listener failed\n"
}

#[tactic(auto, unfolding(crate::specs::Notes::absent_line))]
pub(crate) fn absent_line() -> &'static str
    ensures { result.now ≡ meant.absent_line }
{
    "netconfd: script: absent\n"
}

#[tactic(auto, unfolding(crate::specs::Notes::script_line_word))]
pub(crate) fn script_line_word() -> &'static str
    ensures { result.now ≡ meant.script_line_word }
{
    "netconfd: script: line "
}

#[tactic(auto, unfolding(crate::specs::Notes::script_step_word))]
pub(crate) fn script_step_word() -> &'static str
    ensures { result.now ≡ meant.script_step_word }
{
    "netconfd: script: step "
}

/// What stands between two parts of a line.
#[tactic(auto, unfolding(crate::specs::Notes::space_word))]
pub fn space_word() -> &'static str
    ensures { result.now ≡ meant.space_word }
{
    " "
}

/// The end of each line.
#[tactic(auto, unfolding(crate::specs::Notes::line_end))]
pub fn line_end() -> &'static str
    ensures { result.now ≡ meant.line_end }
{
    "\n"
}

/// The name of the kind of rule that a module breaks.
#[tactic(auto, unfolding(crate::specs::Notes::why_word))]
pub(crate) fn why_word(why: ModuleWhy) -> &'static str
    ensures { result.now ≡ meant.why_word why }
{
    match why {
        ModuleWhy::NotText => "NotText",
        ModuleWhy::BadWords => "BadWords",
        ModuleWhy::UnknownStatement => "UnknownStatement",
        ModuleWhy::Unsupported => "Unsupported",
        ModuleWhy::Missing => "Missing",
        ModuleWhy::Twice => "Twice",
        ModuleWhy::UnknownName => "UnknownName",
        ModuleWhy::Loop => "Loop",
        ModuleWhy::BadArgument => "BadArgument",
        ModuleWhy::TooMany => "TooMany",
        ModuleWhy::PatternRefused => "PatternRefused",
    }
}
