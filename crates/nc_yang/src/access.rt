//! The module ietf-netconf-acm (RFC 8341 3.5.2), which comes before all modules that are handed in.
ghost use Rattle.std.specs.Prelude.{◌≡◌, IfOk, MatchResult};
ghost use Rattle.std.specs.Str.{chars};
ghost use Rattle.nc_yang_words.specs.Spelling.{TextSpells};
ghost use Rattle.nc_yang.specs.Texts.{IsUnread, OnModule};
ghost use Rattle.nc_yang.specs.Access.{HaveStatements, access_yang};

use crate::{CompileFault, ModuleText, read_texts};
use nc_names::{Many, Memory};
use nc_yang_words::{Statement, statements};
use std::alloc::Global;

/// What the module says of a configuration: its 22 data nodes, with types in place of its typedefs.
const ACCESS_YANG: &str = "\
module ietf-netconf-acm {
  namespace 'urn:ietf:params:xml:ns:yang:ietf-netconf-acm';
  prefix nacm;
  revision 2018-02-14;
  revision 2012-02-22;
  container nacm {
    nacm:default-deny-all;
    leaf enable-nacm { type boolean; default true; }
    leaf read-default { type enumeration { enum permit; enum deny; } default permit; }
    leaf write-default { type enumeration { enum permit; enum deny; } default deny; }
    leaf exec-default { type enumeration { enum permit; enum deny; } default permit; }
    leaf enable-external-groups { type boolean; default true; }
    container groups {
      list group {
        key name;
        leaf name { type string { length '1..max'; pattern '[^*].*'; } }
        leaf-list user-name { type string { length '1..max'; } }
      }
    }
    list rule-list {
      key name;
      ordered-by user;
      leaf name { type string { length '1..max'; } }
      leaf-list group {
        type union {
          type enumeration { enum '*'; }
          type string { length '1..max'; pattern '[^*].*'; }
        }
      }
      list rule {
        key name;
        ordered-by user;
        leaf name { type string { length '1..max'; } }
        leaf module-name { type string; default '*'; }
        choice rule-type {
          case protocol-operation { leaf rpc-name { type string; } }
          case notification { leaf notification-name { type string; } }
          case data-node { leaf path { type instance-identifier; } }
        }
        leaf access-operations {
          type union {
            type enumeration { enum '*'; }
            type bits { bit create; bit read; bit update; bit delete; bit exec; }
          }
          default '*';
        }
        leaf action { type enumeration { enum permit; enum deny; } mandatory true; }
        leaf comment { type string; }
      }
    }
  }
}
";

// The text of the module.
#[tactic(auto, unfolding(crate::specs::Access::access_yang))]
fn access_text() -> &'static str
    ensures { result.now ≡ access_yang }
{
    ACCESS_YANG
}

// The statements of the module.
fn access_statements(alloc: Global) -> Result<Statement, Memory>
    ensures { IfOk result (TextSpells (chars access_yang)) }
{
    match statements(alloc, access_text()) {
        Ok(root) => Ok(root),
        // the text has no fault
        Err(_) => Err(Memory),
    }
}

/// The statements of the module, and after it those of the modules that are handed in.
pub(crate) fn all_statements(
    alloc: Global,
    modules: &[ModuleText],
) -> Result<Many<Statement>, CompileFault>
    ensures { MatchResult result (HaveStatements modules.now) (OnModule (IsUnread modules.now)) }
{
    let roots = read_texts(alloc, modules)?;
    let access = access_statements(alloc)?;
    let mut all = Many::new(alloc);
    all.push(access)?;
    all.append(roots)?;
    Ok(all)
}
