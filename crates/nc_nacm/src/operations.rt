//! The access operations of a rule (RFC 8341 3.5.2, `access-operations`).
ghost use Rattle.std.specs.Prelude.{◌≡◌, ◌==◌};
ghost use Rattle.std.specs.List.{list_any, slice_split};
ghost use Rattle.std.specs.Option.{option_copied, option_map_or};
ghost use Rattle.nc_names.specs.Same.{is_same_text};
ghost use Rattle.nc_names.specs.Signs.{blank};
ghost use Rattle.nc_model.specs.Policy as policies;

use crate::words::{create_word, delete_word, exec_word, read_word};
use nc_model::AccessOperations;
use nc_model::server_words::{star, update};
use nc_names::Text;

fn is_part(part: &[u8], word: &[u8]) -> bool
    ensures { result ≡ is_same_text part.now word.now }
{
    part == word
}

fn has_part(text: &[u8], word: &[u8]) -> bool
    ensures { result ≡ list_any (λ part. is_same_text part word.now)
        (slice_split (λ sign. sign == blank) text.now) }
{
    text.split(|sign| *sign == b' ')
        .any(|part| is_part(part, word))
}

fn has_word(word: &str, text: &str) -> bool
    ensures { result ≡ policies.has_word word.now text.now }
{
    has_part(text.as_bytes(), word.as_bytes())
}

fn names_operation(word: &str, text: &str) -> bool
    ensures { result ≡ policies.names_operation word.now text.now }
{
    text == star() || has_word(word, text)
}

fn operations_of(text: &str) -> AccessOperations
    ensures { result ≡ policies.operations_of text.now }
{
    AccessOperations {
        read: names_operation(read_word(), text),
        create: names_operation(create_word(), text),
        update: names_operation(update(), text),
        delete: names_operation(delete_word(), text),
        exec: names_operation(exec_word(), text),
    }
}

/// The access operations that a value names; none where there is no value.
pub(crate) fn operations_in(value: Option<&Text>) -> AccessOperations
    ensures { result ≡ option_map_or policies.operations_of (option_copied value.entry)
        policies.no_operations }
{
    match value {
        Some(text) => operations_of(text.as_str()),
        None => AccessOperations {
            read: false,
            create: false,
            update: false,
            delete: false,
            exec: false,
        },
    }
}
