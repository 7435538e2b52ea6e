//! The names of types over enumerations and bits (RFC 7950 9.6.3, 9.7.3).
ghost use Rattle.std.specs.Prelude.{◌≡◌, ◌||◌, ◌++◌, ◌∷◌, [], if◌then◌else◌, List, map, Some, IfOk, OnOk, unwrap_or};
ghost use Rattle.std.specs.List.{filter, flat_map};
ghost use Rattle.nc_yang_words.specs.declared.statement.Statement.{Statement as Seen};
ghost use Rattle.nc_yang_statements.specs.Rules as rules;
ghost use Rattle.nc_yang_types.specs.declared.member.Named.{Named as TheNamed};
ghost use Rattle.nc_yang_types.specs.Members as members;
ghost use Rattle.nc_yang_types.specs.inner.Known.{HasChosen, HasListing, has_text};
ghost use Rattle.nc_yang_types.specs.Members.{guarded_by};

use crate::conditions::{Always, Conditions, Guarded};
use crate::member::{
    Listed, Named, higher, is_guarded, is_member, member_word, number_at, number_part,
};
use crate::names::renamed;
use crate::part::fault;
use nc_names::{Copies, Many, Memory, Text};
use nc_schema::read_number;
use nc_yang_statements::{Fault, ModuleWhy, has, name};
use nc_yang_words::Statement;
use std::alloc::Global;
use std::collections::{BTreeMap, BTreeSet};

// The names with the one of a statement, where it gives one and its conditions hold.
fn with_chosen<'a, C: Conditions<'a>>(
    conditions: &C,
    listed: Listed,
    names: BTreeSet<&'a str>,
    statement: &'a Statement,
) -> Result<BTreeSet<&'a str>, Memory>
    ensures { IfOk result (λ it. (before : List Seen) → HasChosen
        (C.stands conditions.now) listed names.entry before →
        HasChosen (C.stands conditions.now) listed it (before ++ statement.now ∷ [])) }
{
    if !is_member(listed, statement) {
        return Ok(names);
    }
    if !conditions.holds(statement) {
        return Ok(names);
    }
    let mut names = names;
    names.insert(name(statement))?;
    Ok(names)
}

// The names that statements choose.
fn chosen_names<'a, C: Conditions<'a>>(
    alloc: Global,
    conditions: &C,
    listed: Listed,
    below: &'a [Statement],
) -> Result<BTreeSet<&'a str>, Memory>
    ensures { IfOk result (λ it. HasChosen (C.stands conditions.now) listed it below.now) }
{
    let mut names = BTreeSet::new(alloc);
    for statement in below {
        names = with_chosen(conditions, listed, names, statement)?;
    }
    Ok(names)
}

// The texts with one more, if it is in a set.
fn with_text(kept: Many<Text>, names: &BTreeSet<&str>, text: &Text) -> Result<Many<Text>, Memory>
    ensures { IfOk result (λ it. it
        ≡ (if has_text names.now text.now then kept ++ text.now ∷ [] else kept)) }
{
    if !names.contains(text.as_str()) {
        return Ok(kept);
    }
    let mut kept = kept;
    kept.push(text.copy()?)?;
    Ok(kept)
}

// Those of the texts that are in a set.
fn texts_in(alloc: Global, names: &BTreeSet<&str>, taken: &[Text]) -> Result<Many<Text>, Memory>
    ensures { IfOk result (λ it. it ≡ filter (has_text names.now) taken.now) }
{
    let mut kept = Many::new(alloc);
    for text in taken {
        kept = with_text(kept, names, text)?;
    }
    Ok(kept)
}

/// What is left of the names that a base takes; `None` where the type over it lists none, and all are left.
pub(crate) fn chosen<'a, C: Conditions<'a>>(
    alloc: Global,
    conditions: &C,
    listed: Listed,
    taken: &[Text],
    below: &'a [Statement],
) -> Result<Option<Many<Text>>, Memory>
    ensures { IfOk result (λ it. members.chosen (C.stands conditions.now) listed below.now taken.now
        ≡ unwrap_or it taken.now) }
{
    if !has(below, member_word(listed)) {
        return Ok(None);
    }
    let names = chosen_names(alloc, conditions, listed, below)?;
    Ok(Some(texts_in(alloc, &names, taken)?))
}

// A name with its number once more.
fn copy_of(named: &Named) -> Result<Named, Memory>
    ensures { IfOk result (λ it. it ≡ named.now) }
{
    Ok(Named {
        name: named.name.copy()?,
        number: named.number,
        conditional: named.conditional,
    })
}

/// All of them once more.
pub(crate) fn copies_of(alloc: Global, names: &[Named]) -> Result<Many<Named>, Memory>
    ensures { IfOk result (λ it. it ≡ names.now) }
{
    let mut all = Many::new(alloc);
    for named in names {
        all.push(copy_of(named)?)?;
    }
    Ok(all)
}

// The listed names with one more, if it is in a set.
fn with_listed(
    kept: Many<Named>,
    set: &BTreeSet<&str>,
    named: &Named,
) -> Result<Many<Named>, Memory>
    ensures { IfOk result (λ it. it
        ≡ (if has_text set.now named.now.name then kept ++ named.now ∷ [] else kept)) }
{
    if !set.contains(named.name.as_str()) {
        return Ok(kept);
    }
    let mut kept = kept;
    kept.push(copy_of(named)?)?;
    Ok(kept)
}

// Those of the listed names that are in a set.
fn named_in(alloc: Global, set: &BTreeSet<&str>, names: &[Named]) -> Result<Many<Named>, Memory>
    ensures { IfOk result (λ it. it ≡ filter (λ n. has_text set.now n.name) names.now) }
{
    let mut kept = Many::new(alloc);
    for named in names {
        kept = with_listed(kept, set, named)?;
    }
    Ok(kept)
}

// Whether a name is conditional, or in a set.
fn is_guarded_by(set: &BTreeSet<&str>, named: &Named) -> bool
    ensures { result ≡ (named.now.conditional || has_text set.now named.now.name) }
{
    if named.conditional {
        return true;
    }
    set.contains(named.name.as_str())
}

// A name once more, conditional too where it is in a set.
fn guarded_copy(set: &BTreeSet<&str>, named: &Named) -> Result<Named, Memory>
    ensures { IfOk result (λ it. it ≡ guarded_by (has_text set.now) named.now) }
{
    Ok(Named {
        name: named.name.copy()?,
        number: named.number,
        conditional: is_guarded_by(set, named),
    })
}

// All of them once more, those in a set as conditional.
fn guarded_copies(
    alloc: Global,
    set: &BTreeSet<&str>,
    names: &[Named],
) -> Result<Many<Named>, Memory>
    ensures { IfOk result (λ it. it ≡ map (guarded_by (has_text set.now)) names.now) }
{
    let mut all = Many::new(alloc);
    for named in names {
        all.push(guarded_copy(set, named)?)?;
    }
    Ok(all)
}

/// What is left of the names that a base lists, whether conditions hold or not.
pub(crate) fn still_listed(
    alloc: Global,
    listed: Listed,
    names: &[Named],
    below: &[Statement],
) -> Result<Many<Named>, Memory>
    ensures { IfOk result (λ it. it ≡ members.still_listed listed below.now names.now) }
{
    if !has(below, member_word(listed)) {
        let all = copies_of(alloc, names)?;
        return Ok(all);
    }
    let set = chosen_names(alloc, &Always, listed, below)?;
    let left = named_in(alloc, &set, names)?;
    let guarded = chosen_names(alloc, &Guarded, listed, below)?;
    let marked = guarded_copies(alloc, &guarded, left.as_slice())?;
    Ok(marked)
}

// The names with their numbers, and one more, which has this number.
fn with_named<'b>(
    numbers: BTreeMap<&'b str, i128>,
    named: &'b Named,
    number: i128,
) -> Result<BTreeMap<&'b str, i128>, Memory>
    requires { number ≡ named.now.number }
    ensures { IfOk result (λ it. (before : List TheNamed) → HasListing numbers.entry before →
        HasListing it (before ++ named.now ∷ [])) }
{
    let mut numbers = numbers;
    numbers.insert(named.name.as_str(), number)?;
    Ok(numbers)
}

// The numbers of names.
fn numbers_of<'b>(alloc: Global, names: &'b [Named]) -> Result<BTreeMap<&'b str, i128>, Memory>
    ensures { IfOk result (λ it. HasListing it names.now) }
{
    let mut numbers = BTreeMap::new(alloc);
    for named in names {
        numbers = with_named(numbers, named, named.number)?;
    }
    Ok(numbers)
}

// Whether the number that is written is another.
fn is_other(number: i128, written: Option<i128>) -> bool
    ensures { result ≡ members.is_other number written }
{
    match written {
        Some(written) => written != number,
        None => true,
    }
}

// The fault of a statement that gives a name with another number than this.
fn renumbered(listed: Listed, number: i128, statement: &Statement) -> Option<Fault>
    ensures { result ≡ rules.first (members.unlike listed (Some number) statement.now) }
{
    let given = number_part(listed, statement)?;
    if is_other(number, read_number(name(given))) {
        Some(fault(given, ModuleWhy::BadArgument))
    } else {
        None
    }
}

// The fault of a statement that gives a name which the base has with this number, or has not.
fn unlike(listed: Listed, number: Option<i128>, statement: &Statement) -> Option<Fault>
    ensures { result ≡ rules.first (members.unlike listed number statement.now) }
{
    match number {
        Some(number) => renumbered(listed, number, statement),
        None => Some(fault(statement, ModuleWhy::BadArgument)),
    }
}

// The first name that the base has not, or with another number.
fn first_unlike(
    listed: Listed,
    numbers: &BTreeMap<&str, i128>,
    below: &[Statement],
) -> Option<Fault>
    ensures { (names : List TheNamed) → HasListing numbers.now names →
        result ≡ rules.first (flat_map (members.ill_choice listed names) below.now) }
{
    for statement in below {
        if !is_member(listed, statement) {
            continue;
        }
        let number = numbers.get(name(statement)).copied();
        if let Some(fault) = unlike(listed, number, statement) {
            return Some(fault);
        }
    }
    None
}

/// The first fault of the names of a type over one that lists these.
#[tactic(auto, using(crate::proofs::Firsts::first_some, crate::proofs::Firsts::first_none))]
pub(crate) fn ill_choices(
    alloc: Global,
    listed: Listed,
    names: &[Named],
    below: &[Statement],
) -> Result<Option<Fault>, Memory>
    ensures { IfOk result (λ it. it ≡ rules.first (members.ill_choices listed names.now below.now)) }
{
    if !has(below, member_word(listed)) {
        return Ok(None);
    }
    if let Some(fault) = renamed(alloc, listed, below)? {
        return Ok(Some(fault));
    }
    let numbers = numbers_of(alloc, names)?;
    Ok(first_unlike(listed, &numbers, below))
}

// The name of a statement with its number, if it has one, at the end.
fn push_named(
    names: &mut Many<Named>,
    alloc: Global,
    statement: &Statement,
    number: Option<i128>,
) -> Result<(), Memory>
    ensures { OnOk result (names.new ≡ names.old ++ members.named_by (statement.now, number)) }
{
    match number {
        Some(number) => names.push(Named {
            name: Text::from_text(alloc, name(statement))?,
            number,
            conditional: is_guarded(statement),
        }),
        None => Ok(()),
    }
}

/// The names that a built-in type lists, each with its number.
pub(crate) fn listing(
    alloc: Global,
    listed: Listed,
    below: &[Statement],
) -> Result<Many<Named>, Memory>
    ensures { IfOk result (λ it. it ≡ members.listing listed below.now) }
{
    let mut high = None;
    let mut names = Many::new(alloc);
    for statement in below {
        if !is_member(listed, statement) {
            continue;
        }
        let number = number_at(listed, high, statement);
        push_named(&mut names, alloc, statement, number)?;
        high = higher(high, number);
    }
    Ok(names)
}
