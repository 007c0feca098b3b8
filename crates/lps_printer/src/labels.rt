//! Labels.

ghost use Rattle.std.specs.Prelude.{◌≡◌, ◌<◌, length, map, slice_get, get_or, Some, OnOk, false};
ghost use Rattle.std.specs.List.{All};
ghost use Rattle.data_theory.specs.Keys.{Key};
ghost use Rattle.process_terms.specs.PlainProcesses.{plain_action, plain_label};
ghost use Rattle.lps_printer.specs.SummandLayout.{print_action, print_bars};
ghost use Rattle.lps_printer.specs.CodeProcesses.{action_by, label_by, print_label, AddsText, IsActionBy};

use crate::process_writer::ProcessWriter;
use crate::tokens::push_token;
use data_theory::{ActId, NoMemory};
use process_terms::{Action, Label};

impl ProcessWriter<'_> {
    /// Whether the name of an action is declared once.
    pub(crate) fn is_declared_once(&self, act: ActId) -> bool
        ensures { result ≡ get_or self.now.once.now act.0 false }
    {
        match self.once.get(act.0) {
            Some(once) => *once,
            None => false,
        }
    }

    /// The name of an action.
    fn action_name(&self, act: ActId) -> &[u8]
        requires { act.0 < length self.now.terms.sig.now.actions }
        ensures { (k : Key) → slice_get self.now.terms.sig.now.actions act.0 ≡ Some k → slice_get self.now.terms.sig.now.texts k.name.0 ≡ Some result.now }
    {
        let names = self.terms.sig.names();
        let entries = self.terms.sig.acts();
        names.text(entries[act.0].name).as_bytes()
    }

    /// An action with its arguments, behind white space.
    fn action(&self, action: &Action, gap: &[u8], out: &mut Vec<u8>) -> Result<(), NoMemory>
        requires { IsActionBy self.now (plain_action action.now) }
        ensures { OnOk result (AddsText self.now out.old.items out.new.items (λ t rest. print_action (action_by self.now t (plain_action action.now)) gap.now rest)) }
    {
        let once = self.is_declared_once(action.act);
        let name = self.action_name(action.act);
        self.terms
            .call(name, action.args.as_slice(), once, gap, out)
    }

    /// Actions, each behind a bar.
    fn further_actions(&self, actions: &[Action], out: &mut Vec<u8>) -> Result<(), NoMemory>
        requires { All (IsActionBy self.now) (map plain_action actions.now) }
        ensures { OnOk result (AddsText self.now out.old.items out.new.items (λ t rest. print_bars (map (action_by self.now t) (map plain_action actions.now)) rest)) }
    {
        for action in actions {
            push_token(out, b"", b"|")?;
            self.action(action, b"", out)?;
        }
        Ok(())
    }

    /// A label, behind white space: `tau` for the empty one.
    pub(crate) fn label(&self, label: &Label, gap: &[u8], out: &mut Vec<u8>) -> Result<(), NoMemory>
        requires { All (IsActionBy self.now) (plain_label label.now) }
        ensures { OnOk result (AddsText self.now out.old.items out.new.items (λ t rest. print_label t.names (label_by self.now t (plain_label label.now)) gap.now rest)) }
    {
        let actions = label.actions.as_slice();
        if actions.is_empty() {
            return push_token(out, gap, b"tau");
        }
        self.action(&actions[0], gap, out)?;
        self.further_actions(&actions[1..], out)
    }
}
