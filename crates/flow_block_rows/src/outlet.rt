//! An outlet by itself, with the test in the place of its targets.
use crate::shared::{are, has_left, header, two_rules};
use flow_link::LinkId;
use flow_outlet::{Outlet, OutletFault};
use flow_value::{MAX_ID, MessageHeader, MessageStatus, Parcel, Value};
use std::alloc::{AllocError, Global};
use std::process::Abort;

/// What is done with the outlet.
enum Call {
    /// These numbers are put, with this weight.
    Put(&'static [i64], u32),
    /// This number is put alone, with this weight.
    PutOne(i64, u32),
    /// It is asked for its next offer.
    Next,
    /// The offer that is out over the link is answered so.
    Answer(LinkId, MessageStatus),
    /// The link's target takes the message that was offered to it last.
    Consume(LinkId),
    /// The link's target asks to reserve the message that was offered to it last.
    Reserve(LinkId),
    /// The link's target gives that message up.
    Release(LinkId),
    /// It is asked which room came back.
    Room,
    /// It is asked whether these numbers are what is left.
    Left(&'static [i64]),
}

/// What comes of it.
#[derive(Clone, Copy, PartialEq)]
enum Done {
    Taken,
    NoIds,
    Offered(LinkId, u64),
    NoOffer,
    Noted,
    Gave(i64),
    Gone,
    Kept,
    NotKept,
    Released,
    Room(u32),
    Left(bool),
    /// Something that no call is to come to.
    Strange,
}

/// The calls with two links, where two ids are behind the first.
const LAST_IDS: &[(Call, Done)] = &[
    (Call::PutOne(4, 1), Done::Taken),
    (Call::Next, Done::Offered(0, MAX_ID - 2)),
    (Call::Answer(0, MessageStatus::Accepted), Done::Noted),
    (Call::Consume(0), Done::Gave(4)),
    (Call::Room, Done::Room(1)),
    (Call::Put(&[5, 6], 2), Done::Taken),
    (Call::Put(&[7], 1), Done::NoIds),
    (Call::Next, Done::Offered(0, MAX_ID - 1)),
    (Call::Answer(0, MessageStatus::Postponed), Done::Noted),
    (Call::Next, Done::Offered(1, MAX_ID - 1)),
    (Call::Answer(1, MessageStatus::Postponed), Done::Noted),
    (Call::Next, Done::NoOffer),
    (Call::Consume(1), Done::Gave(5)),
    (Call::Consume(0), Done::Gone),
    (Call::Room, Done::Room(0)),
    (Call::Next, Done::Offered(0, MAX_ID)),
    (Call::Answer(0, MessageStatus::Accepted), Done::Noted),
    (Call::Consume(0), Done::Gave(6)),
    (Call::Room, Done::Room(2)),
    (Call::Put(&[7], 1), Done::NoIds),
    (Call::PutOne(7, 1), Done::NoIds),
    (Call::Left(&[]), Done::Left(true)),
];

/// The calls with two links that both postponed the same message: it is kept for one of them, and released.
const RESERVATIONS: &[(Call, Done)] = &[
    (Call::Put(&[5, 6], 2), Done::Taken),
    (Call::Next, Done::Offered(0, MAX_ID - 1)),
    (Call::Answer(0, MessageStatus::Postponed), Done::Noted),
    (Call::Next, Done::Offered(1, MAX_ID - 1)),
    (Call::Answer(1, MessageStatus::Postponed), Done::Noted),
    (Call::Next, Done::NoOffer),
    (Call::Reserve(0), Done::Kept),
    (Call::Reserve(1), Done::NotKept),
    (Call::Consume(1), Done::Gone),
    (Call::Release(0), Done::Released),
    (Call::Left(&[5, 6]), Done::Left(true)),
    (Call::Next, Done::Offered(0, MAX_ID - 1)),
    (Call::Answer(0, MessageStatus::Accepted), Done::Noted),
    (Call::Consume(0), Done::Gave(5)),
    (Call::Left(&[6]), Done::Left(true)),
];

fn values_of(alloc: Global, numbers: &[i64]) -> Result<Vec<Value>, AllocError> {
    let mut values = Vec::new(alloc);
    for number in numbers {
        values.push(Value::Int(*number))?;
    }
    Ok(values)
}

/// An outlet and the message that was offered last over each of its links.
#[derive(Drop)]
struct Case {
    outlet: Outlet,
    offered: [MessageHeader; 2],
}

impl Case {
    fn new(rt: &impl Abort, alloc: Global, first: u64) -> Case {
        let first = header(rt, first);
        let rules = two_rules(rt, alloc, 0, 1);
        let Ok(outlet) = Outlet::new(alloc, rules, first) else {
            panic!(rt; "out of memory");
        };
        Case {
            outlet,
            offered: [first; 2],
        }
    }

    /// The message that was offered last over this link.
    fn offered(&self, link: LinkId) -> MessageHeader {
        let [first, second] = self.offered;
        if link == 0 { first } else { second }
    }

    fn act(&mut self, alloc: Global, call: &Call) -> Result<Done, AllocError> {
        match *call {
            Call::Put(numbers, weight) => self.put(alloc, numbers, weight),
            Call::PutOne(number, weight) => Ok(self.put_one(number, weight)),
            Call::Next => self.next(alloc),
            Call::Answer(link, status) => Ok(self.answer(link, status)),
            Call::Consume(link) => Ok(self.consume(link)),
            Call::Reserve(link) => Ok(self.reserve(link)),
            Call::Release(link) => Ok(self.release(link)),
            Call::Room => Ok(Done::Room(self.outlet.room_back())),
            Call::Left(numbers) => Ok(Done::Left(has_left(self.outlet.left(), numbers))),
        }
    }

    fn put(&mut self, alloc: Global, numbers: &[i64], weight: u32) -> Result<Done, AllocError> {
        let values = values_of(alloc, numbers)?;
        if weight > u32::MAX - self.outlet.weight() {
            return Ok(Done::Strange);
        }
        Ok(match self.outlet.put(values, weight) {
            Ok(()) => Done::Taken,
            Err((back, OutletFault::Ids)) if are(back.as_slice(), numbers) => Done::NoIds,
            Err(_) => Done::Strange,
        })
    }

    fn put_one(&mut self, number: i64, weight: u32) -> Done {
        if weight > u32::MAX - self.outlet.weight() {
            return Done::Strange;
        }
        match self.outlet.put_one(Value::Int(number), weight) {
            Ok(()) => Done::Taken,
            Err((back, OutletFault::Ids)) if back.as_int() == Some(number) => Done::NoIds,
            Err(_) => Done::Strange,
        }
    }

    fn next(&mut self, alloc: Global) -> Result<Done, AllocError> {
        let Some((link, header)) = self.outlet.next_offer(alloc)? else {
            return Ok(Done::NoOffer);
        };
        let [first, second] = self.offered;
        self.offered = if link == 0 {
            [header, second]
        } else {
            [first, header]
        };
        Ok(Done::Offered(link, header.id()))
    }

    fn answer(&mut self, link: LinkId, status: MessageStatus) -> Done {
        let header = self.offered(link);
        if !self.outlet.is_asked(link, header) {
            return Done::Strange;
        }
        self.outlet.note_answer(link, header, status);
        Done::Noted
    }

    fn consume(&mut self, link: LinkId) -> Done {
        let header = self.offered(link);
        if !self.outlet.may_consume(link, header) {
            return Done::Strange;
        }
        match self.outlet.consume_message(link, header) {
            Some(parcel) => number_in(&parcel),
            None => Done::Gone,
        }
    }

    fn reserve(&mut self, link: LinkId) -> Done {
        let header = self.offered(link);
        if !self.outlet.may_reserve(link, header) {
            return Done::Strange;
        }
        if self.outlet.reserve_message(link, header) {
            Done::Kept
        } else {
            Done::NotKept
        }
    }

    fn release(&mut self, link: LinkId) -> Done {
        let header = self.offered(link);
        if !self.outlet.is_reserved(link, header) {
            return Done::Strange;
        }
        self.outlet.release_reservation(link, header);
        Done::Released
    }
}

/// The number that is given.
fn number_in(parcel: &Parcel) -> Done {
    match parcel.value().as_int() {
        Some(number) => Done::Gave(number),
        None => Done::Strange,
    }
}

/// Does these calls with an outlet whose first message has this id.
fn does_all(rt: &impl Abort, alloc: Global, first: u64, calls: &[(Call, Done)]) {
    let mut case = Case::new(rt, alloc, first);
    let mut number = 0u64;
    for (call, due) in calls {
        let Ok(done) = case.act(alloc, call) else {
            panic!(rt; "out of memory");
        };
        if done != *due {
            panic!(rt; "call {number} comes to something else");
        }
        number = number.saturating_add(1);
    }
}

#[test]
fn outlet_ids_run_out(rt: HostRuntime) {
    does_all(&rt, rt.alloc(), MAX_ID - 2, LAST_IDS);
}

#[test]
fn outlet_reservations(rt: HostRuntime) {
    does_all(&rt, rt.alloc(), MAX_ID - 1, RESERVATIONS);
}
