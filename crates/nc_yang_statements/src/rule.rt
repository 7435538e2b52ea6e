//! The rules of one statement (RFC 7950 7, 14): of each the first of its faults.
ghost use Rattle.std.specs.Prelude.{◌≡◌, ◌&&◌, not, Some};
ghost use Rattle.std.specs.List.{list_any};
ghost use Rattle.std.specs.Option.{option_copied};
ghost use Rattle.nc_yang_statements.specs.Places as places;
ghost use Rattle.nc_yang_statements.specs.Statements as statements;
ghost use Rattle.nc_yang_statements.specs.Rules as rules;
ghost use Rattle.nc_yang_statements.specs.declared.keyword.Keyword.TheVariants.{Default as DefaultWord};

use crate::argument::{is_true_text, why_misfit};
use crate::keyword::{is_closed, is_refused, keywords};
use crate::place::{count_of, is_never, is_once, is_single};
use crate::statement::{has, kind, name, part};
use crate::{Fault, Keyword, ModuleWhy};
use nc_schema::read_number;
use nc_yang_words::Statement;

// A fault of the statement.
fn fault(statement: &Statement, why: ModuleWhy) -> Fault
    ensures { result ≡ record { line = statements.line statement.now; why = why } }
{
    Fault {
        line: statement.line,
        why,
    }
}

// Whether a statement may not stand directly below another.
fn is_misplaced(above: Keyword, keyword: Keyword) -> bool
    ensures { result ≡ rules.is_misplaced above keyword }
{
    !matches!(keyword, Keyword::Prefixed) && is_never(count_of(above, keyword))
}

// Why a statement may not stand directly below another.
fn why_misplaced(above: Keyword, keyword: Keyword) -> Option<ModuleWhy>
    ensures { result ≡ rules.why_misplaced above keyword }
{
    if is_refused(keyword) {
        return Some(ModuleWhy::Unsupported);
    }
    if is_misplaced(above, keyword) {
        Some(ModuleWhy::UnknownStatement)
    } else {
        None
    }
}

// The first statement that may not stand below it.
fn misplaced(statement: &Statement) -> Option<Fault>
    ensures { result ≡ rules.first (rules.misplaced statement.now) }
{
    let above = kind(statement);
    for below in statement.below.as_slice() {
        if let Some(why) = why_misplaced(above, kind(below)) {
            return Some(fault(below, why));
        }
    }
    None
}

// Whether a statement has to stand below another and does not.
fn lacks(statement: &Statement, keyword: Keyword) -> bool
    ensures { result ≡ (places.is_once (places.count_of (statements.kind statement.now) keyword)
        && not (statements.has keyword (statements.below statement.now))) }
{
    is_once(count_of(kind(statement), keyword)) && !has(statement.below.as_slice(), keyword)
}

fn missing(statement: &Statement) -> Option<Fault>
    ensures { result ≡ rules.first (rules.missing statement.now) }
{
    for keyword in keywords() {
        if lacks(statement, *keyword) {
            return Some(fault(statement, ModuleWhy::Missing));
        }
    }
    None
}

// Whether a statement is the second of which one may stand there.
fn repeats(above: Keyword, before: &[Statement], statement: &Statement) -> bool
    ensures { result ≡ (places.is_single (places.count_of above (statements.kind statement.now))
        && statements.has (statements.kind statement.now) before.now) }
{
    is_single(count_of(above, kind(statement))) && has(before, kind(statement))
}

fn twice(statement: &Statement) -> Option<Fault>
    ensures { result ≡ rules.first (rules.twice statement.now) }
{
    let above = kind(statement);
    let among = statement.below.as_slice();
    for (place, below) in among.iter().enumerate() {
        if repeats(above, among.split_at(place).0, below) {
            return Some(fault(below, ModuleWhy::Twice));
        }
    }
    None
}

fn misfit(statement: &Statement) -> Option<Fault>
    ensures { result ≡ rules.first (rules.misfit statement.now) }
{
    let why = why_misfit(kind(statement), &statement.argument)?;
    Some(fault(statement, why))
}

// Whether something has to be there by these statements.
fn says_true(statement: Option<&Statement>) -> bool
    ensures { result ≡ rules.says_true (option_copied statement.entry) }
{
    match statement {
        Some(found) => is_true_text(name(found)),
        None => false,
    }
}

// Whether the statement asks for an entry or more.
fn asks_entries(statement: Option<&Statement>) -> bool
    ensures { result ≡ rules.asks_entries (option_copied statement.entry) }
{
    let Some(found) = statement else {
        return false;
    };
    match read_number(name(found)) {
        Some(count) => count > 0,
        None => false,
    }
}

fn is_required(among: &[Statement]) -> bool
    ensures { result ≡ rules.is_required among.now }
{
    says_true(part(among, Keyword::Mandatory)) || asks_entries(part(among, Keyword::MinElements))
}

fn defaulted(statement: &Statement) -> Option<Fault>
    ensures { result ≡ rules.first (rules.defaulted statement.now) }
{
    let among = statement.below.as_slice();
    let default = part(among, Keyword::Default)?;
    if is_required(among) {
        Some(fault(default, ModuleWhy::BadArgument))
    } else {
        None
    }
}

// Whether the first argument is the larger number.
fn is_above(least: &Statement, most: &Statement) -> bool
    ensures { result ≡ rules.is_above_in least.now most.now }
{
    match (read_number(name(least)), read_number(name(most))) {
        (Some(a), Some(b)) => a > b,
        _ => false,
    }
}

fn crossed(statement: &Statement) -> Option<Fault>
    ensures { result ≡ rules.first (rules.crossed statement.now) }
{
    let among = statement.below.as_slice();
    let least = part(among, Keyword::MinElements)?;
    let most = part(among, Keyword::MaxElements)?;
    if is_above(least, most) {
        Some(fault(least, ModuleWhy::BadArgument))
    } else {
        None
    }
}

// Whether the statement is a case of that name.
fn is_case_of(wanted: &str, statement: &Statement) -> bool
    ensures { result ≡ rules.is_case_of wanted.now statement.now }
{
    is_case(kind(statement)) && name(statement) == wanted
}

// Whether it is a case, or a node that is one by itself.
fn is_case(keyword: Keyword) -> bool
    ensures { result ≡ rules.is_case keyword }
{
    match keyword {
        Keyword::Case
        | Keyword::Choice
        | Keyword::Container
        | Keyword::Leaf
        | Keyword::LeafList
        | Keyword::List => true,
        _ => false,
    }
}

// Whether one of the statements is a case of that name.
fn has_case(wanted: &str, among: &[Statement]) -> bool
    ensures { result ≡ list_any (rules.is_case_of wanted.now) among.now }
{
    among.iter().any(|other| is_case_of(wanted, other))
}

// The default that names no case among these.
fn caseless_in(among: &[Statement]) -> Option<Fault>
    ensures { result ≡ rules.first (rules.caseless_at among.now (statements.part DefaultWord among.now)) }
{
    let default = part(among, Keyword::Default)?;
    if has_case(name(default), among) {
        None
    } else {
        Some(fault(default, ModuleWhy::UnknownName))
    }
}

fn caseless(statement: &Statement) -> Option<Fault>
    ensures { result ≡ rules.first (rules.caseless statement.now) }
{
    if matches!(kind(statement), Keyword::Choice) {
        caseless_in(statement.below.as_slice())
    } else {
        None
    }
}

// The first that may not stand below it, has to and does not, or stands there a second time.
#[tactic(auto, using(crate::proofs::Firsts::first_some, crate::proofs::Firsts::first_none))]
fn ill_formed(statement: &Statement) -> Option<Fault>
    ensures { result ≡ rules.first (rules.ill_formed statement.now) }
{
    if let Some(fault) = misplaced(statement) {
        return Some(fault);
    }
    if let Some(fault) = missing(statement) {
        return Some(fault);
    }
    twice(statement)
}

// The first fault of what those below say together.
#[tactic(auto, using(crate::proofs::Firsts::first_some, crate::proofs::Firsts::first_none))]
fn contrary(statement: &Statement) -> Option<Fault>
    ensures { result ≡ rules.first (rules.contrary statement.now) }
{
    if let Some(fault) = defaulted(statement) {
        return Some(fault);
    }
    if let Some(fault) = crossed(statement) {
        return Some(fault);
    }
    caseless(statement)
}

// The first fault with those below.
#[tactic(auto, using(crate::proofs::Firsts::first_some, crate::proofs::Firsts::first_none))]
fn faulty_below(statement: &Statement) -> Option<Fault>
    ensures { result ≡ rules.first (rules.faulty_below statement.now) }
{
    if is_closed(kind(statement)) {
        return None;
    }
    if let Some(fault) = ill_formed(statement) {
        return Some(fault);
    }
    contrary(statement)
}

/// The first rule that a statement breaks by itself.
#[tactic(auto, using(crate::proofs::Firsts::first_some, crate::proofs::Firsts::first_none))]
pub(crate) fn broken(statement: &Statement) -> Option<Fault>
    ensures { result ≡ rules.first (rules.broken statement.now) }
{
    if let Some(fault) = misfit(statement) {
        return Some(fault);
    }
    faulty_below(statement)
}

// Why a text of that statement is of no module.
fn why_root(keyword: Keyword) -> Option<ModuleWhy>
    ensures { result ≡ rules.why_root keyword }
{
    match keyword {
        Keyword::Module => None,
        _ => {
            if is_refused(keyword) {
                Some(ModuleWhy::Unsupported)
            } else {
                Some(ModuleWhy::UnknownStatement)
            }
        }
    }
}

/// The fault of a text that is of no module.
pub(crate) fn no_module(root: &Statement) -> Option<Fault>
    ensures { result ≡ rules.first (rules.at (rules.why_root (statements.kind root.now)) root.now) }
{
    let why = why_root(kind(root))?;
    Some(fault(root, why))
}
