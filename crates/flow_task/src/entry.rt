//! Where callers post into a scattered network, while others turn its tasks.
ghost use Rattle.std.specs.Prelude.{◌≡◌, ◌≢◌, true, false, [], Some, IfErr, IfOk, OnErr, OnOk};
ghost use Rattle.flow_link.specs.Posted.{is_numbered_ending};
ghost use Rattle.flow_lawful.specs.Quiet.{is_open};
ghost use Rattle.flow_link.specs.declared.phase.Move.TheVariants.{Give};
ghost use Rattle.flow_outlet.specs.Law.{is_refused};
ghost use Rattle.flow_input.specs.Input.{InputCall, after_input, input_move};
ghost use Rattle.flow_input.specs.InputKeeps.{MayCallInput};
ghost use Rattle.flow_input.specs.Sends.{after_told, has_id, is_idle, sends_of, settled, takes_more, told_next};
ghost use Rattle.flow_poll.specs.Sends.{Begins, IsUnbegunFor, Tells};
ghost use Rattle.flow_poll.specs.declared.send.SendFault.TheVariants.{Busy};
ghost use Rattle.flow_task.specs.Entries.{Says, tells_nothing, with_parcel};
ghost use Rattle.flow_task.specs.Parts.{entry_board, entry_number, entry_state};

use crate::board::Board;
use crate::numbered::Entry;
use flow_link::{Ending, Move};
use flow_poll::{SendFault, Sent};
use flow_value::{Runs, Value};
use std::alloc::Global;

impl<W: Runs> Entry<W> {
    /// The values that were taken before the network was scattered, and those that were told as accepted since then, in order.
    pub fn accepted(&self) -> &[Value]
        ensures { result.now ≡ (sends_of (entry_state self.now)).accepted }
    {
        self.input.input.accepted()
    }

    /// Begins a value that the block is to take at once or not at all. What became of it is told by a later look. Busy while a value is
    /// begun; a value that is not begun comes back.
    ///
    /// Microsoft: `DataflowBlock.Post`.
    pub fn begin_post(
        &mut self,
        alloc: Global,
        board: &Board<W>,
        value: Value,
    ) -> Result<(), (Value, SendFault)>
        requires of { entry_board self.old ≡ board.now }
        ensures of { entry_board self.new ≡ entry_board self.old }
        ensures number { entry_number self.new ≡ entry_number self.old }
        ensures begins { OnOk result (Begins (record { value = value; may_postpone = false }) (has_id (entry_state self.old))
            (sends_of (entry_state self.old)) (sends_of (entry_state self.new))) }
        ensures kept { OnErr result (entry_state self.new ≡ entry_state self.old) }
        ensures back { IfErr result (λ refused. refused.0 ≡ value) }
        ensures why { IfErr result (λ refused. IsUnbegunFor refused.1 (has_id (entry_state self.old)) (sends_of (entry_state self.old))) }
    {
        self.begin(alloc, board, value, false)
    }

    /// Begins a value that the block may put off. What became of it is told by a later look. Busy while a value is begun; a value that is
    /// not begun comes back.
    ///
    /// Microsoft: `DataflowBlock.SendAsync`.
    pub fn begin_send(
        &mut self,
        alloc: Global,
        board: &Board<W>,
        value: Value,
    ) -> Result<(), (Value, SendFault)>
        requires of { entry_board self.old ≡ board.now }
        ensures of { entry_board self.new ≡ entry_board self.old }
        ensures number { entry_number self.new ≡ entry_number self.old }
        ensures begins { OnOk result (Begins (record { value = value; may_postpone = true }) (has_id (entry_state self.old))
            (sends_of (entry_state self.old)) (sends_of (entry_state self.new))) }
        ensures kept { OnErr result (entry_state self.new ≡ entry_state self.old) }
        ensures back { IfErr result (λ refused. refused.0 ≡ value) }
        ensures why { IfErr result (λ refused. IsUnbegunFor refused.1 (has_id (entry_state self.old)) (sends_of (entry_state self.old))) }
    {
        self.begin(alloc, board, value, true)
    }

    /// Tells what became of the first value that was begun, if that is known by now: its end looks, and where nothing is to be told, it
    /// makes a move. A value is told as accepted when the block has taken it out of the link. Once the entry is to end, or the block
    /// refuses for good, a value that is begun comes back for good.
    pub fn look(&mut self, board: &Board<W>) -> Sent
        requires of { entry_board self.old ≡ board.now }
        ensures of { entry_board self.new ≡ entry_board self.old }
        ensures number { entry_number self.new ≡ entry_number self.old }
        ensures tells { Tells result (sends_of (entry_state self.old)) (sends_of (entry_state self.new)) }
        ensures says { Says result (entry_state self.new) }
        ensures same_ending { (entry_state self.new).ending ≡ (entry_state self.old).ending }
    {
        self.see(board);
        let sent = self.tell();
        if tells_nothing(&sent) {
            self.step(board);
        }
        sent
    }

    /// No value comes any more: the link ends so. Busy while a value is begun; a second ending changes nothing.
    ///
    /// Microsoft: `IDataflowBlock.Complete` and `IDataflowBlock.Fault`.
    pub fn finish(&mut self, board: &Board<W>, how: Ending) -> Result<(), SendFault>
        requires of { entry_board self.old ≡ board.now }
        requires numbered { is_numbered_ending how ≡ true }
        ensures of { entry_board self.new ≡ entry_board self.old }
        ensures number { entry_number self.new ≡ entry_number self.old }
        ensures same { sends_of (entry_state self.new) ≡ sends_of (entry_state self.old) }
        ensures finished { OnOk result (is_open (entry_state self.old).ending ≡ true → (entry_state self.new).ending ≡ how) }
        ensures again { OnOk result (is_open (entry_state self.old).ending ≡ false → entry_state self.new ≡ entry_state self.old) }
        ensures kept { OnErr result (entry_state self.new ≡ entry_state self.old) }
        ensures busy { IfErr result (λ fault. fault ≡ Busy) }
        ensures why { OnErr result ((sends_of (entry_state self.old)).begun ≢ []) }
    {
        if !self.input.input.is_idle() {
            return Err(SendFault::Busy);
        }
        if self.input.input.is_open() {
            self.end_so(how);
            self.step(board);
        }
        Ok(())
    }

    /// Begins a value, where none is begun and there is an id for it.
    fn begin(
        &mut self,
        alloc: Global,
        board: &Board<W>,
        value: Value,
        may_postpone: bool,
    ) -> Result<(), (Value, SendFault)>
        requires of { entry_board self.old ≡ board.now }
        ensures of { entry_board self.new ≡ entry_board self.old }
        ensures number { entry_number self.new ≡ entry_number self.old }
        ensures begins { OnOk result (Begins (record { value = value; may_postpone = may_postpone }) (has_id (entry_state self.old))
            (sends_of (entry_state self.old)) (sends_of (entry_state self.new))) }
        ensures kept { OnErr result (entry_state self.new ≡ entry_state self.old) }
        ensures back { IfErr result (λ refused. refused.0 ≡ value) }
        ensures why { IfErr result (λ refused. IsUnbegunFor refused.1 (has_id (entry_state self.old)) (sends_of (entry_state self.old))) }
    {
        if !self.input.input.is_idle() {
            return Err((value, SendFault::Busy));
        }
        if !self.input.input.has_id() {
            return Err((value, SendFault::Ids));
        }
        match self.begin_next(alloc, board, value, may_postpone) {
            Ok(()) => Ok(()),
            Err(value) => Err((value, SendFault::Memory)),
        }
    }

    /// Begins a value. It comes back where memory is out.
    fn begin_next(
        &mut self,
        alloc: Global,
        board: &Board<W>,
        value: Value,
        may_postpone: bool,
    ) -> Result<(), Value>
        requires of { entry_board self.old ≡ board.now }
        requires idle { is_idle (entry_state self.old) ≡ true }
        requires id { has_id (entry_state self.old) ≡ true }
        ensures of { entry_board self.new ≡ entry_board self.old }
        ensures number { entry_number self.new ≡ entry_number self.old }
        ensures begins { OnOk result (Begins (record { value = value; may_postpone = may_postpone }) (has_id (entry_state self.old))
            (sends_of (entry_state self.old)) (sends_of (entry_state self.new))) }
        ensures kept { OnErr result (entry_state self.new ≡ entry_state self.old) }
        ensures back { IfErr result (λ back. back ≡ value) }
    {
        if !self.input.input.takes_more() {
            self.send_back(value, !may_postpone);
            return Ok(());
        }
        if may_postpone {
            self.begin_later(alloc, value)
        } else {
            self.post(alloc, board, value)
        }
    }

    /// A value goes back, since none is taken any more.
    fn send_back(&mut self, value: Value, at_once: bool)
        requires { MayCallInput (InputCall.send_back value at_once) (entry_state self.old) }
        ensures of { entry_board self.new ≡ entry_board self.old }
        ensures number { entry_number self.new ≡ entry_number self.old }
        ensures back { entry_state self.new ≡ after_input (InputCall.send_back value at_once) (entry_state self.old) }
    {
        self.input.send_back(value, at_once);
    }

    /// Begins a value that the block may put off, with its parcel.
    fn begin_later(&mut self, alloc: Global, value: Value) -> Result<(), Value>
        requires { MayCallInput (InputCall.begin value) (entry_state self.old) }
        ensures of { entry_board self.new ≡ entry_board self.old }
        ensures number { entry_number self.new ≡ entry_number self.old }
        ensures begun { OnOk result (entry_state self.new ≡ with_parcel (after_input (InputCall.begin value) (entry_state self.old))) }
        ensures kept { OnErr result (entry_state self.new ≡ entry_state self.old) }
        ensures back { IfErr result (λ back. back ≡ value) }
    {
        self.input.begin(alloc, value)
    }

    /// Posts a value to the block, which takes it at once or turns it down.
    fn post(&mut self, alloc: Global, board: &Board<W>, value: Value) -> Result<(), Value>
        requires of { entry_board self.old ≡ board.now }
        requires may { MayCallInput (InputCall.post value) (entry_state self.old) }
        requires id { has_id (entry_state self.old) ≡ true }
        ensures of { entry_board self.new ≡ entry_board self.old }
        ensures number { entry_number self.new ≡ entry_number self.old }
        ensures posted { OnOk result (entry_state self.new ≡ after_input (InputCall.post value) (entry_state self.old)) }
        ensures kept { OnErr result (entry_state self.new ≡ entry_state self.old) }
        ensures back { IfErr result (λ back. back ≡ value) }
    {
        self.input.post(alloc, board, value)
    }

    /// Its end looks.
    fn see(&mut self, board: &Board<W>)
        requires of { entry_board self.old ≡ board.now }
        ensures of { entry_board self.new ≡ entry_board self.old }
        ensures number { entry_number self.new ≡ entry_number self.old }
        ensures same { sends_of (entry_state self.new) ≡ sends_of (entry_state self.old) }
        ensures same_ending { (entry_state self.new).ending ≡ (entry_state self.old).ending }
    {
        self.input.look(board);
    }

    /// Tells what became of the first value that was begun, as far as its end has seen.
    fn tell(&mut self) -> Sent
        ensures of { entry_board self.new ≡ entry_board self.old }
        ensures number { entry_number self.new ≡ entry_number self.old }
        ensures told { result ≡ (told_next (entry_state self.old)).answer }
        ensures done { entry_state self.new ≡ after_told (told_next (entry_state self.old)).call (entry_state self.old) }
    {
        self.input.tell()
    }

    /// Its end makes its move, if it has one. All that it gave was told.
    fn step(&mut self, board: &Board<W>)
        requires of { entry_board self.old ≡ board.now }
        requires told { (entry_state self.old).told ≡ settled (entry_state self.old) }
        ensures of { entry_board self.new ≡ entry_board self.old }
        ensures number { entry_number self.new ≡ entry_number self.old }
        ensures same { sends_of (entry_state self.new) ≡ sends_of (entry_state self.old) }
        ensures same_ending { (entry_state self.new).ending ≡ (entry_state self.old).ending }
        ensures stands { is_refused (entry_state self.new).stage ≡ is_refused (entry_state self.old).stage }
    {
        let Some(next) = self.input.input.next_move() else {
            return;
        };
        if next == Move::Give {
            self.give(board);
        } else {
            self.input.go_ready(board, next);
        }
    }

    /// Its end gives the value that is wanted, and the parcel of the next one is put ready.
    fn give(&mut self, board: &Board<W>)
        requires of { entry_board self.old ≡ board.now }
        requires next { input_move (entry_state self.old) ≡ Some Give }
        requires told { (entry_state self.old).told ≡ settled (entry_state self.old) }
        ensures of { entry_board self.new ≡ entry_board self.old }
        ensures number { entry_number self.new ≡ entry_number self.old }
        ensures same { sends_of (entry_state self.new) ≡ sends_of (entry_state self.old) }
        ensures same_ending { (entry_state self.new).ending ≡ (entry_state self.old).ending }
        ensures stands { is_refused (entry_state self.new).stage ≡ is_refused (entry_state self.old).stage }
    {
        self.input.go_ready(board, Move::Give);
        if let Some(parcel) = self.ready.pop_front() {
            self.input.put_parcel(parcel);
        }
    }

    /// No value comes any more, where none is begun and some might have come.
    fn end_so(&mut self, how: Ending)
        requires { MayCallInput (InputCall.finish how) (entry_state self.old) }
        ensures of { entry_board self.new ≡ entry_board self.old }
        ensures number { entry_number self.new ≡ entry_number self.old }
        ensures finished { entry_state self.new ≡ after_input (InputCall.finish how) (entry_state self.old) }
    {
        self.input.finish(how);
    }
}

/// Whether an answer tells nothing of a value.
fn tells_nothing(sent: &Sent) -> bool
    ensures { result ≡ tells_nothing sent.now }
{
    match sent {
        Sent::Idle | Sent::Waiting => true,
        Sent::Accepted | Sent::Declined(_) | Sent::Permanently(_) => false,
    }
}
