//! Keywords (RFC 7950 6.1.2, 14).
ghost use Rattle.std.specs.Prelude.{◌≡◌, ◌==◌};
ghost use Rattle.std.specs.List.{list_any};
ghost use Rattle.nc_names.specs.Same.{is_same_text};
ghost use Rattle.nc_names.specs.Signs.{colon};
ghost use Rattle.nc_yang_statements.specs.Keywords.{word_of, keywords, keyword_of, other_keyword};
ghost use Rattle.nc_yang_statements.specs.Keywords.{is_refused, is_read_over, is_closed, is_same_keyword};

/// A keyword of a statement.
#[derive(Clone, Copy, PartialEq, Eq)]
pub enum Keyword {
    /// `module` (RFC 7950 7.1).
    Module,
    /// `yang-version` (RFC 7950 7.1.2).
    YangVersion,
    /// `namespace` (RFC 7950 7.1.3).
    Namespace,
    /// `prefix` (RFC 7950 7.1.4).
    Prefix,
    /// `import` (RFC 7950 7.1.5).
    Import,
    /// `revision-date` (RFC 7950 7.1.5.1).
    RevisionDate,
    /// `revision` (RFC 7950 7.1.9).
    Revision,
    /// `typedef` (RFC 7950 7.3).
    Typedef,
    /// `grouping` (RFC 7950 7.12).
    Grouping,
    /// `uses` (RFC 7950 7.13).
    Uses,
    /// `container` (RFC 7950 7.5).
    Container,
    /// `presence` (RFC 7950 7.5.5).
    Presence,
    /// `list` (RFC 7950 7.8).
    List,
    /// `key` (RFC 7950 7.8.2).
    Key,
    /// `unique` (RFC 7950 7.8.3).
    Unique,
    /// `leaf` (RFC 7950 7.6).
    Leaf,
    /// `leaf-list` (RFC 7950 7.7).
    LeafList,
    /// `choice` (RFC 7950 7.9).
    Choice,
    /// `case` (RFC 7950 7.9.2).
    Case,
    /// `mandatory` (RFC 7950 7.6.5, 7.9.4).
    Mandatory,
    /// `default` (RFC 7950 7.3.4, 7.6.4, 7.7.4, 7.9.3).
    Default,
    /// `min-elements` (RFC 7950 7.7.5).
    MinElements,
    /// `max-elements` (RFC 7950 7.7.6).
    MaxElements,
    /// `ordered-by` (RFC 7950 7.7.7).
    OrderedBy,
    /// `config` (RFC 7950 7.21.1).
    Config,
    /// `identity` (RFC 7950 7.18).
    Identity,
    /// `base` (RFC 7950 7.18.2, 9.10.2).
    Base,
    /// `feature` (RFC 7950 7.20.1).
    Feature,
    /// `if-feature` (RFC 7950 7.20.2).
    IfFeature,
    /// `type` (RFC 7950 7.4).
    TypeName,
    /// `range` (RFC 7950 9.2.4).
    Range,
    /// `length` (RFC 7950 9.4.4).
    Length,
    /// `enum` (RFC 7950 9.6.4).
    EnumName,
    /// `bit` (RFC 7950 9.7.4).
    Bit,
    /// `fraction-digits` (RFC 7950 9.3.4).
    FractionDigits,
    /// `path` (RFC 7950 9.9.2).
    Path,
    /// `require-instance` (RFC 7950 9.9.3).
    RequireInstance,
    /// `value` (RFC 7950 9.6.4.2).
    Value,
    /// `position` (RFC 7950 9.7.4.2).
    Position,
    /// `organization` (RFC 7950 7.1.7).
    Organization,
    /// `contact` (RFC 7950 7.1.8).
    Contact,
    /// `description` (RFC 7950 7.21.3).
    Description,
    /// `reference` (RFC 7950 7.21.4).
    Reference,
    /// `units` (RFC 7950 7.3.3).
    Units,
    /// `status` (RFC 7950 7.21.2).
    Status,
    /// `error-message` (RFC 7950 7.5.4.1).
    ErrorMessage,
    /// `error-app-tag` (RFC 7950 7.5.4.2).
    ErrorAppTag,
    /// `extension` (RFC 7950 7.19).
    Extension,
    /// `rpc` (RFC 7950 7.14).
    Rpc,
    /// `action` (RFC 7950 7.15).
    Action,
    /// `notification` (RFC 7950 7.16).
    Notification,
    /// `submodule` (RFC 7950 7.2).
    Submodule,
    /// `belongs-to` (RFC 7950 7.2.2).
    BelongsTo,
    /// `include` (RFC 7950 7.1.6).
    Include,
    /// `augment` (RFC 7950 7.17).
    Augment,
    /// `refine` (RFC 7950 7.13.2).
    Refine,
    /// `deviation` (RFC 7950 7.20.3).
    Deviation,
    /// `deviate` (RFC 7950 7.20.3.2).
    Deviate,
    /// `anydata` (RFC 7950 7.10).
    Anydata,
    /// `anyxml` (RFC 7950 7.11).
    Anyxml,
    /// `must` (RFC 7950 7.5.3).
    Must,
    /// `when` (RFC 7950 7.21.5).
    When,
    /// `pattern` (RFC 7950 9.4.5).
    Pattern,
    /// `modifier` (RFC 7950 9.4.6).
    Modifier,
    /// `input` (RFC 7950 7.14.2).
    Input,
    /// `output` (RFC 7950 7.14.3).
    Output,
    /// `argument` (RFC 7950 7.19.2).
    Argument,
    /// `yin-element` (RFC 7950 7.19.2.2).
    YinElement,
    /// A statement of an extension, whose keyword has a prefix (RFC 7950 7.19).
    Prefixed,
    /// No keyword of the standard.
    Unknown,
}

/// The word of a keyword; empty for one that has no word of its own.
#[tactic(auto, unfolding(crate::specs::Keywords::word_of))]
pub fn word_of(keyword: Keyword) -> &'static str
    ensures { result.now ≡ word_of keyword }
{
    match keyword {
        Keyword::Module => "module",
        Keyword::YangVersion => "yang-version",
        Keyword::Namespace => "namespace",
        Keyword::Prefix => "prefix",
        Keyword::Import => "import",
        Keyword::RevisionDate => "revision-date",
        Keyword::Revision => "revision",
        Keyword::Typedef => "typedef",
        Keyword::Grouping => "grouping",
        Keyword::Uses => "uses",
        Keyword::Container => "container",
        Keyword::Presence => "presence",
        Keyword::List => "list",
        Keyword::Key => "key",
        Keyword::Unique => "unique",
        Keyword::Leaf => "leaf",
        Keyword::LeafList => "leaf-list",
        Keyword::Choice => "choice",
        Keyword::Case => "case",
        Keyword::Mandatory => "mandatory",
        Keyword::Default => "default",
        Keyword::MinElements => "min-elements",
        Keyword::MaxElements => "max-elements",
        Keyword::OrderedBy => "ordered-by",
        Keyword::Config => "config",
        Keyword::Identity => "identity",
        Keyword::Base => "base",
        Keyword::Feature => "feature",
        Keyword::IfFeature => "if-feature",
        Keyword::TypeName => "type",
        Keyword::Range => "range",
        Keyword::Length => "length",
        Keyword::EnumName => "enum",
        Keyword::Bit => "bit",
        Keyword::FractionDigits => "fraction-digits",
        Keyword::Path => "path",
        Keyword::RequireInstance => "require-instance",
        Keyword::Value => "value",
        Keyword::Position => "position",
        Keyword::Organization => "organization",
        Keyword::Contact => "contact",
        Keyword::Description => "description",
        Keyword::Reference => "reference",
        Keyword::Units => "units",
        Keyword::Status => "status",
        Keyword::ErrorMessage => "error-message",
        Keyword::ErrorAppTag => "error-app-tag",
        Keyword::Extension => "extension",
        Keyword::Rpc => "rpc",
        Keyword::Action => "action",
        Keyword::Notification => "notification",
        Keyword::Submodule => "submodule",
        Keyword::BelongsTo => "belongs-to",
        Keyword::Include => "include",
        Keyword::Augment => "augment",
        Keyword::Refine => "refine",
        Keyword::Deviation => "deviation",
        Keyword::Deviate => "deviate",
        Keyword::Anydata => "anydata",
        Keyword::Anyxml => "anyxml",
        Keyword::Must => "must",
        Keyword::When => "when",
        Keyword::Pattern => "pattern",
        Keyword::Modifier => "modifier",
        Keyword::Input => "input",
        Keyword::Output => "output",
        Keyword::Argument => "argument",
        Keyword::YinElement => "yin-element",
        Keyword::Prefixed | Keyword::Unknown => "",
    }
}

/// The keywords of the standard.
#[tactic(auto, unfolding(crate::specs::Keywords::keywords))]
pub fn keywords() -> &'static [Keyword]
    ensures { result.now ≡ keywords }
{
    &[
        Keyword::Module,
        Keyword::YangVersion,
        Keyword::Namespace,
        Keyword::Prefix,
        Keyword::Import,
        Keyword::RevisionDate,
        Keyword::Revision,
        Keyword::Typedef,
        Keyword::Grouping,
        Keyword::Uses,
        Keyword::Container,
        Keyword::Presence,
        Keyword::List,
        Keyword::Key,
        Keyword::Unique,
        Keyword::Leaf,
        Keyword::LeafList,
        Keyword::Choice,
        Keyword::Case,
        Keyword::Mandatory,
        Keyword::Default,
        Keyword::MinElements,
        Keyword::MaxElements,
        Keyword::OrderedBy,
        Keyword::Config,
        Keyword::Identity,
        Keyword::Base,
        Keyword::Feature,
        Keyword::IfFeature,
        Keyword::TypeName,
        Keyword::Range,
        Keyword::Length,
        Keyword::EnumName,
        Keyword::Bit,
        Keyword::FractionDigits,
        Keyword::Path,
        Keyword::RequireInstance,
        Keyword::Value,
        Keyword::Position,
        Keyword::Organization,
        Keyword::Contact,
        Keyword::Description,
        Keyword::Reference,
        Keyword::Units,
        Keyword::Status,
        Keyword::ErrorMessage,
        Keyword::ErrorAppTag,
        Keyword::Extension,
        Keyword::Rpc,
        Keyword::Action,
        Keyword::Notification,
        Keyword::Submodule,
        Keyword::BelongsTo,
        Keyword::Include,
        Keyword::Augment,
        Keyword::Refine,
        Keyword::Deviation,
        Keyword::Deviate,
        Keyword::Anydata,
        Keyword::Anyxml,
        Keyword::Must,
        Keyword::When,
        Keyword::Pattern,
        Keyword::Modifier,
        Keyword::Input,
        Keyword::Output,
        Keyword::Argument,
        Keyword::YinElement,
    ]
}

// Whether a colon stands in the word.
fn has_colon(word: &str) -> bool
    ensures { result ≡ list_any (λ c. c == colon) word.now }
{
    word.as_bytes().iter().any(|byte| *byte == b':')
}

// The keyword of a word that is none of the standard.
fn other_keyword(word: &str) -> Keyword
    ensures { result ≡ other_keyword word.now }
{
    if has_colon(word) {
        Keyword::Prefixed
    } else {
        Keyword::Unknown
    }
}

// Whether this is the word of the keyword.
fn is_word_of(keyword: Keyword, word: &str) -> bool
    ensures { result ≡ is_same_text (word_of keyword) word.now }
{
    word_of(keyword) == word
}

/// The keyword that a word is.
#[tactic(auto, unfolding(crate::specs::Keywords::keyword_of))]
pub fn keyword_of(word: &str) -> Keyword
    ensures { result ≡ keyword_of word.now }
{
    for keyword in keywords() {
        if is_word_of(*keyword, word) {
            return *keyword;
        }
    }
    other_keyword(word)
}

/// Whether the statement is one that the server does not have.
pub fn is_refused(keyword: Keyword) -> bool
    ensures { result ≡ is_refused keyword }
{
    match keyword {
        Keyword::Submodule
        | Keyword::BelongsTo
        | Keyword::Include
        | Keyword::Augment
        | Keyword::Refine
        | Keyword::Deviation
        | Keyword::Deviate
        | Keyword::Anydata
        | Keyword::Anyxml
        | Keyword::Must
        | Keyword::When
        | Keyword::Modifier
        | Keyword::Input
        | Keyword::Output
        | Keyword::Argument
        | Keyword::YinElement => true,
        _ => false,
    }
}

/// Whether the statement is passed over with all that stands below it.
pub fn is_read_over(keyword: Keyword) -> bool
    ensures { result ≡ is_read_over keyword }
{
    match keyword {
        Keyword::Organization
        | Keyword::Contact
        | Keyword::Description
        | Keyword::Reference
        | Keyword::Units
        | Keyword::Status
        | Keyword::ErrorMessage
        | Keyword::ErrorAppTag
        | Keyword::Extension
        | Keyword::Rpc
        | Keyword::Action
        | Keyword::Notification
        | Keyword::Prefixed => true,
        _ => false,
    }
}

/// Whether nothing is asked of what stands below the statement.
pub fn is_closed(keyword: Keyword) -> bool
    ensures { result ≡ is_closed keyword }
{
    is_refused(keyword) || is_read_over(keyword)
}

/// Whether two keywords are the same.
pub fn is_same_keyword(a: Keyword, b: Keyword) -> bool
    ensures { result ≡ is_same_keyword a b }
{
    a == b
}
