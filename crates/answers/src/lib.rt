// The answers to a supplier's group, written straight into the lent output.
#![tactic(auto)]

pub mod acf;
pub mod rej;

ghost use Rattle.std.specs.Prelude.{◌≡◌, ◌≤◌, length};
ghost use Rattle.records.specs.Layout.{is_sup};

use records::layout;

// Whether a header has the Notification Code SUP.
fn is_sup(h: &[u8]) -> bool
    requires { 33 ≤ length h.now }
    ensures { result ≡ is_sup h.now }
{
    layout::NOTICE.holds(h, b"SUP")
}
