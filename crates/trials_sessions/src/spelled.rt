//! Long texts, spelled short: `^` stands for the beginning of a client's hello up to its first capability and
//! `$` for its end, `+` and `*` for the capabilities of base:1.0 and base:1.1, `%` for the server's hello,
//! `@` for the base namespace, `;` for the mark; `~`, `|` and `!` for what stands before and after a size
//! and after the last chunk; `(N}` and `)` for the tags of an rpc with the message-id N, `_` for a
//! get-config of running, `[` for the reply that the small desk gives to each request; and `&` for an
//! exclamation mark.
//!
//! The tests stand below this module and see what is private in it.
mod desk;

use std::alloc::Global;
use std::process::Abort;

// The base namespace as it is declared (RFC 6241 3.1).
const BASE: &str = "xmlns=\"urn:ietf:params:xml:ns:netconf:base:1.0\"";

// The server's hello to session 1 where there is no module (RFC 6241 8.1).
const SERVER_HELLO: &str = "<hello xmlns=\"urn:ietf:params:xml:ns:netconf:base:1.0\"><capabilities>\
    <capability>urn:ietf:params:netconf:base:1.0</capability>\
    <capability>urn:ietf:params:netconf:base:1.1</capability>\
    <capability>urn:ietf:params:netconf:capability:candidate:1.0</capability>\
    <capability>urn:ietf:params:netconf:capability:confirmed-commit:1.1</capability>\
    <capability>urn:ietf:params:netconf:capability:rollback-on-error:1.0</capability>\
    <capability>urn:ietf:params:netconf:capability:validate:1.1</capability>\
    <capability>urn:ietf:params:netconf:capability:partial-lock:1.0</capability>\
    </capabilities><session-id>1</session-id></hello>]]>]]>";

// The reply of the small desk, which repeats no attributes.
const REPLY: &str =
    "<rpc-reply xmlns=\"urn:ietf:params:xml:ns:netconf:base:1.0\"><ok/></rpc-reply>";

// What a sign stands for, or nothing where it stands for itself.
fn word(sign: char) -> &'static str {
    match sign {
        '^' => "<hello xmlns=\"urn:ietf:params:xml:ns:netconf:base:1.0\"><capabilities>",
        '+' => "<capability>urn:ietf:params:netconf:base:1.0</capability>",
        '*' => "<capability>urn:ietf:params:netconf:base:1.1</capability>",
        '$' => "</capabilities></hello>",
        '@' => BASE,
        ';' => "]]>]]>",
        '%' => SERVER_HELLO,
        '~' => "\n#",
        '|' => "\n",
        '!' => "\n##\n",
        '&' => "!",
        '(' => "<rpc xmlns=\"urn:ietf:params:xml:ns:netconf:base:1.0\" message-id=\"",
        ')' => "</rpc>",
        '}' => "\">",
        '[' => REPLY,
        '_' => "<get-config><source><running/></source></get-config>",
        _ => "",
    }
}

fn put(rt: &impl Abort, text: &mut String, more: &str) {
    text.push_str(more).expect(rt, "memory");
}

fn put_sign(rt: &impl Abort, text: &mut String, sign: char) {
    let word = word(sign);
    if word.is_empty() {
        text.push(sign).expect(rt, "memory");
    } else {
        put(rt, text, word);
    }
}

fn put_spelled(rt: &impl Abort, text: &mut String, short: &str) {
    for sign in short.chars() {
        put_sign(rt, text, sign);
    }
}

// A text that is spelled short.
fn spelled(rt: &impl Abort, alloc: Global, short: &str) -> String {
    let mut text = String::new(alloc);
    put_spelled(rt, &mut text, short);
    text
}
