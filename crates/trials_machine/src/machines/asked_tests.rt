//! Operations as requests with their parameters or their first fault (RFC 6241 7.4 to 7.6, 7.9 and 8.4; RFC
//! 5717 2.4). The other operations are shown at the program.
use super::{asked, is_same, put, put_cause};
use nc_protocol::{Asked, Request, Select};
use std::alloc::Global;
use std::fmt::Write;
use std::process::Abort;

fn put_selects(rt: &impl Abort, shown: &mut String, selects: &[Select]) {
    for select in selects {
        put(rt, shown, " «");
        put(rt, shown, select.text.as_str());
        put(rt, shown, "»");
    }
}

// What has no select in it has a text of its own that fits a table.
fn put_asked(rt: &impl Abort, shown: &mut String, asked: &Asked) {
    match asked {
        Asked::PartialLock { selects } => {
            put(rt, shown, "PartialLock");
            put_selects(rt, shown, selects.as_slice());
        }
        _ => write!(shown, "{asked:?}").expect(rt, "memory"),
    }
}

fn put_request(rt: &impl Abort, shown: &mut String, request: &Request) {
    match &request.asked {
        Ok(asked) => put_asked(rt, shown, asked),
        Err(cause) => put_cause(rt, shown, cause),
    }
}

// Looks whether what an operation asks for is shown so.
fn is_asked(rt: &impl Abort, alloc: Global, operation: &str, wanted: &str) {
    let request = asked(rt, alloc, operation);
    let mut shown = String::new(alloc);
    put_request(rt, &mut shown, request.get());
    is_same(rt, operation, shown.as_str(), wanted);
}

const ASKED: &[(&str, &str)] = &[
    (
        "<delete-config><target><startup/></target></delete-config>",
        "DeleteConfig { target: Startup }",
    ),
    (
        "<lock><target><running/></target></lock>",
        "Lock { target: Running }",
    ),
    ("<lock/>", "MissingParameter target"),
    (
        "<lock><target><candidate/></target><target><candidate/></target></lock>",
        "RepeatedParameter target",
    ),
    (
        "<unlock><target><candidate/></target></unlock>",
        "Unlock { target: Candidate }",
    ),
    ("<unlock><source/></unlock>", "UnknownParameter source"),
    (
        "<kill-session><session-id>2</session-id></kill-session>",
        "KillSession { session: 2 }",
    ),
    (
        "<kill-session><session-id> +0004294967295 </session-id></kill-session>",
        "KillSession { session: 4294967295 }",
    ),
    ("<kill-session/>", "MissingParameter session-id"),
    (
        "<kill-session><session-id>0</session-id></kill-session>",
        "BadParameter session-id",
    ),
    (
        "<kill-session><session-id>-1</session-id></kill-session>",
        "BadParameter session-id",
    ),
    (
        "<kill-session><session-id>4294967296</session-id></kill-session>",
        "BadParameter session-id",
    ),
    (
        "<kill-session><session-id>1.0</session-id></kill-session>",
        "BadParameter session-id",
    ),
    (
        "<kill-session><session-id><x/>1</session-id></kill-session>",
        "BadParameter session-id",
    ),
    (
        "<commit/>",
        "Commit { confirmed: false, timeout: 600, persist: None, persist_id: None }",
    ),
    (
        "<commit><confirmed/></commit>",
        "Commit { confirmed: true, timeout: 600, persist: None, persist_id: None }",
    ),
    (
        "<commit><persist> a </persist><confirm-timeout>1</confirm-timeout><confirmed> </confirmed></commit>",
        "Commit { confirmed: true, timeout: 1, persist: Some(\" a \"), persist_id: None }",
    ),
    (
        "<commit><persist-id/></commit>",
        "Commit { confirmed: false, timeout: 600, persist: None, persist_id: Some(\"\") }",
    ),
    (
        "<commit><confirmed>true</confirmed></commit>",
        "BadParameter confirmed",
    ),
    (
        "<commit><confirm-timeout>5</confirm-timeout></commit>",
        "BadParameter confirm-timeout",
    ),
    (
        "<commit><confirmed/><confirm-timeout>0</confirm-timeout></commit>",
        "BadParameter confirm-timeout",
    ),
    (
        "<commit><persist>t</persist><x/></commit>",
        "BadParameter persist",
    ),
    ("<cancel-commit/>", "CancelCommit { persist_id: None }"),
    (
        "<cancel-commit><persist-id>t</persist-id></cancel-commit>",
        "CancelCommit { persist_id: Some(\"t\") }",
    ),
    (
        "<cancel-commit><confirmed/></cancel-commit>",
        "UnknownParameter confirmed",
    ),
    (
        "<p:partial-lock><p:select> /a:b </p:select><p:select/></p:partial-lock>",
        "PartialLock «/a:b» «»",
    ),
    ("<p:partial-lock/>", "MissingParameter select"),
    (
        "<p:partial-lock><p:select/><p:select><x/></p:select></p:partial-lock>",
        "BadParameter select",
    ),
    (
        "<p:partial-lock><select/></p:partial-lock>",
        "UnknownParameter select",
    ),
    (
        "<p:partial-unlock><p:lock-id>1</p:lock-id></p:partial-unlock>",
        "PartialUnlock { lock: 1 }",
    ),
    ("<p:partial-unlock/>", "MissingParameter lock-id"),
    (
        "<p:partial-unlock><p:lock-id>x</p:lock-id></p:partial-unlock>",
        "BadParameter lock-id",
    ),
];

#[test]
fn operations_are_read_with_their_parameters(rt: HostRuntime) {
    for (operation, wanted) in ASKED {
        is_asked(&rt, rt.alloc(), operation, wanted);
    }
}
