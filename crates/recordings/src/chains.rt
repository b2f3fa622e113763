// The sheet of a chain: the plan of a run, with the actions and the rule of a sheet.
ghost use Rattle.std.specs.Prelude.{◌≡◌, ◌*◌, ◌≤◌, length, take};
ghost use Rattle.text.specs.Placing.{Puts};
ghost use Rattle.recordings.specs.Runs.{most_actions};
ghost use Rattle.recordings.specs.RunAsSheet.{chain_bytes, chain_sheet};
ghost use Rattle.recordings.specs.Internal.Chains.{chain_room, chain_sheet_room, chain_head, Judgeable};

use sheet::HEAD_LENGTH;
use sheet::plan::action_count;
use sheet::reader::{actions_body, plan_body, rule_body};
use sheet::writer::head_of;
use text::Writer;

// The most actions of a run.
pub(crate) const MOST_ACTIONS: usize = 127;

// Room for the transitions of a run, three bytes each.
pub(crate) const CHAIN_ROOM: usize = 3 * MOST_ACTIONS;

// Room for the sheet of a chain: 17 bytes of contents, a plan of 4 bytes and the transitions, 97 bytes of actions, 193 of rule.
pub(crate) const CHAIN_SHEET_ROOM: usize = HEAD_LENGTH + 4 + CHAIN_ROOM + 97 + 193;

// The transitions of a run at the front of room: action i leads from state i to state i + 1.
pub(crate) fn put_chain(run: &[u8], room: &mut [u8]) -> usize
    requires { (length run.now ≤ most_actions) × (chain_room ≤ length room.old) }
    ensures { Puts (chain_bytes 0 run.now) result room.old room.new }
{
    let mut writer = Writer::new(room);
    for (i, &action) in run.iter().enumerate() {
        writer.put(&[i as u8, action, (i + 1) as u8]);
    }
    writer.place
}

// S, A and T of a chain of n actions.
fn chain_head(actions: u8, n: usize) -> [u8; 4]
    requires { n ≤ most_actions }
    ensures { result ≡ chain_head actions n }
{
    [(n + 1) as u8, actions, n as u8, 0]
}

// A recording of a machine whose rule is on the sheet, with the transitions of its chain.
#[derive(Clone, Copy)]
pub(crate) struct Recording<'a> {
    pub(crate) sheet: &'a [u8],
    pub(crate) run: &'a [u8],
    pub(crate) chain: &'a [u8],
    ghost judgeable: { Judgeable sheet.now run.now chain.now },
}

impl<'a> Recording<'a> {
    // The beginning of n actions, which is a recording too.
    pub(crate) fn beginning(self, n: usize) -> Recording<'a>
        requires { n ≤ length self.run.now }
        ensures sheet_same { result.sheet.now ≡ self.entry.sheet.now }
        ensures front { result.run.now ≡ take n self.entry.run.now }
    {
        Recording {
            sheet: self.sheet,
            run: &self.run[..n],
            chain: &self.chain[..3 * n],
        }
    }

    // The sheet of the chain at the front of room, and its length.
    pub(crate) fn put_sheet(self, room: &mut [u8]) -> usize
        requires { chain_sheet_room ≤ length room.old }
        ensures { Puts (chain_sheet self.entry.sheet.now self.entry.run.now) result room.old room.new }
    {
        let actions = actions_body(self.sheet);
        let rule = rule_body(self.sheet);
        let head = head_of(
            (4 + self.chain.len()) as u16,
            actions.len() as u16,
            rule.len() as u16,
        );
        let start = chain_head(action_count(plan_body(self.sheet)), self.run.len());
        let mut writer = Writer::new(room);
        writer.put(&head);
        writer.put(&start);
        writer.put(self.chain);
        writer.put(actions);
        writer.put(rule);
        writer.place
    }
}
