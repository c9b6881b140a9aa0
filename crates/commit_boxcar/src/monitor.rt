//! The state of the monitor.
ghost use Rattle.std.specs.Prelude.{◌≡◌, ◌≢◌, ◌++◌, ◌∷◌, [], ◌-◌, ◌^◌, ◌<◌, ◌≤◌, length, min, false, None, OnOk, OnErr, IfOk, IfErr, IfSome};
ghost use Rattle.disk_model.specs.Held.{HasCause};
ghost use Rattle.chronicle.specs.Seats.{HasGrown, HasNewlySeen, Knows, own_events};
ghost use Rattle.tmf_model.specs.declared.transid.Transid.{Transid};
ghost use Rattle.trail_files.specs.declared.monitor_record.MonitorRecord.{MonitorRecord};
ghost use Rattle.node_machine.specs.declared.event.Event.TheVariants.{OfMonitor};
ghost use Rattle.node_machine.specs.Monitor.{ended_by, AreLater, IsBacked, StandsAt};
ghost use Rattle.node_machine.specs.Node.{node};
ghost use Rattle.node_machine.specs.Opening.{monitor_part, opening_parts};
ghost use Rattle.node_machine.specs.Parts.{Fact};
ghost use Rattle.node_machine.specs.Parts.Fact.{Recorded};
ghost use Rattle.node_machine.specs.Same.{Among};
ghost use Rattle.node_machine.specs.declared.event.MonitorEvent.TheVariants.{Offer, Land, Failed};
ghost use Rattle.audit_writer.specs.Writer.{IsHandedIn};
ghost use Rattle.commit_boxcar.specs.Cars.{HasCar, HasFilled, HasStopped, IsHeldUp, HasTakenOne, HasLine, HasLineFor, HasDriven, IsIdle, IsPlaceOf, when_told};
ghost use Rattle.commit_boxcar.specs.Given.{AreAsked, HasCarOf, IsCarRefused, IsNextCar, landing, written};
ghost use Rattle.commit_boxcar.specs.Line.{AreTaken, IsAsked, IsNext, MayBeLast};
ghost use Rattle.commit_boxcar.specs.Monitor.{IsMonitor, IsOpened, AreShown, line, offered_batch};
ghost use Rattle.commit_boxcar.specs.Requests.{HasFoundEmpty, that_heard};
ghost use Rattle.commit_boxcar.specs.Seat.{HasHad, HasMet};

use crate::aside::Aside;
use crate::name::MonitorRun;
use crate::queue::{Asked, PopEnd, PushReceipt, RequestsName};
use crate::room::{MOST, Room, ended};
use crate::seat::MonitorSeat;
use crate::waiting::Waiting;
use audit_writer::load_batch;
use boxcar_timer::Depart;
use chronicle::Seat;
use disk_model::{Disk, DiskFault};
use node_machine::{By, MonitorEvent, NodeMachine};
use std::alloc::Global;
use std::marker::Model;
use std::sync::Wait;
use trail_files::{MonitorRecord, Trail};

/// A car departs after so many holds, whatever is decided.
const HOLDS: u32 = 1000;

/// What stands behind the monitor's lock: its trail, the seat of its part, its end of the queue of requests, those that it popped and has not
/// written, and what decides when a car departs.
#[derive(Drop)]
pub struct MonitorState<'a, D: Disk, J: MonitorRun<D>, C: Depart, Q: RequestsName> {
    seat: MonitorSeat<'a, J>,
    trail: Trail<D, MonitorRecord>,
    // How many records have landed on the trail, and how many are offered.
    places: u64,
    offered: u64,
    room: Room,
    end: PopEnd<J, Q>,
    decide: C,
}

impl<'a, D: Disk, J: MonitorRun<D>, C: Depart, Q: RequestsName> Model
    for MonitorState<'a, D, J, C, Q> {
    ghost use Rattle.std.specs.Prelude.{◌≡◌, ◌+◌, [], length};
    ghost use Rattle.chronicle.specs.Seats.{Knows};
    ghost use Rattle.node_machine.specs.Monitor.{recorded, offered_car};
    ghost use Rattle.node_machine.specs.Node.{node};
    ghost use Rattle.commit_boxcar.specs.Line.{IsLine, line_of};
    ghost use Rattle.commit_boxcar.specs.Monitor.{Monitor, IsMonitor};

    ghost Value = { Monitor D };

    ghost view = { λ w. record { seat = w.seat; trail = w.trail; room = w.room.requests; end = w.end } };

    ghost invariant = { λ w. (w.places ≡ J.found.places + length (recorded w.seat.part.events)) × (w.offered ≡ length (offered_car w.seat.part.events))
        × IsMonitor D.Disk J.opening J.found J.before J.faults J.premise J.devices (record { seat = w.seat; trail = w.trail; room = w.room.requests; end = w.end })
        × IsLine (Knows node J.opening w.seat.sight) J.found.epoch J.found.places (line_of w.seat.part w.room.requests) w.room.last
        × IsLine (Knows node J.opening w.seat.sight) J.found.epoch J.found.places (line_of w.seat.part []) w.room.written };
}

impl<'a, D: Disk, J: MonitorRun<D>, C: Depart, Q: RequestsName> MonitorState<'a, D, J, C, Q> {
    /// Says what is known of it. It does nothing.
    pub fn lawful(&self)
        ensures lawful { IsMonitor D.Disk J.opening J.found J.before J.faults J.premise J.devices self.now }
        ensures once { AreLater [] (line self.now) }
    {
        let _ = &self.places;
    }

    /// The state of the monitor, over the seat of its part, at its end of a queue. So many records stand on its trail. It takes room for one
    /// car; want of memory is its only refusal, and gives all back.
    pub fn attach(
        alloc: Global,
        trail: Trail<D, MonitorRecord>,
        places: u64,
        seat: MonitorSeat<'a, J>,
        decide: C,
        end: PopEnd<J, Q>,
    ) -> Result<
        Self,
        (
            Trail<D, MonitorRecord>,
            Seat<NodeMachine, J>,
            C,
            PopEnd<J, Q>,
        ),
    >
        requires opened { IsOpened D.Disk J.opening J.found J.before J.faults J.premise J.devices seat trail }
        requires places { places ≡ J.found.places }
        ensures ok { IfOk result (λ w. w ≡ record { seat = seat.entry; trail = trail; room = []; end = end }) }
        ensures err { IfErr result (λ e. (e.0 ≡ trail) × (e.1 ≡ seat.entry.sight) × (e.2 ≡ decide) × (e.3 ≡ end)) }
    {
        let Ok(room) = Room::new(alloc) else {
            return Err((trail, seat.into_seat(), decide, end));
        };
        Ok(MonitorState {
            seat,
            trail,
            places,
            offered: 0,
            room,
            end,
            decide,
        })
    }

    /// Its trail, on the device that was handed in for it, its seat, what decides, and its end of the queue. Where the premise holds, the part
    /// allows each image that the device may leave.
    pub fn into_parts(
        self,
    ) -> (
        Trail<D, MonitorRecord>,
        Seat<NodeMachine, J>,
        C,
        PopEnd<J, Q>,
    )
        ensures trail { result.0 ≡ self.entry.trail }
        ensures seat { result.1 ≡ self.entry.seat.sight }
        ensures end { result.3 ≡ self.entry.end }
        ensures device { IsHandedIn D.Disk (J.devices 0) result.0.device }
        ensures lawful { IsMonitor D.Disk J.opening J.found J.before J.faults J.premise J.devices self.entry }
        ensures shown { AreShown D.Disk (J.premise 0) J.before self.entry }
    {
        Trail::<D, MonitorRecord>::every_image();
        let MonitorState {
            seat,
            trail,
            end,
            decide,
            ..
        } = self;
        (trail, seat.into_seat(), decide, end)
    }

    /// Lets the monitor's seat and the caller's tell each other what they have seen. It appends nothing.
    pub fn meet(&mut self, caller: &mut Seat<NodeMachine, J>)
        ensures met { HasMet J.opening J.found self.old.seat self.new.seat caller.old caller.new }
        ensures trail { self.new.trail ≡ self.old.trail }
        ensures requests { (self.new.room ≡ self.old.room) × (self.new.end ≡ self.old.end) }
        ensures backed { (x : MonitorRecord) → Among (line self.new) x → IsBacked (Knows node J.opening self.new.seat.sight) x }
    {
        self.seat.meet(caller);
    }

    /// The number of the monitor's own events, or 2^64 - 1 where there are more.
    pub fn events(&self) -> u64
        ensures { result ≡ min (length (own_events self.now.seat.sight)) (2 ^ 64 - 1) }
    {
        self.seat.events()
    }

    /// Takes in what a receipt of its queue tells.
    pub fn hear(&mut self, receipt: PushReceipt<J, Q>)
        ensures { self.new ≡ record self.old { end = that_heard receipt self.old.end } }
    {
        self.end.hear(receipt);
    }

    // Takes in what the receipt of an ask tells, where there is one.
    pub(crate) fn hear_of(&mut self, asked: Asked<J, Q>)
        ensures { self.new ≡ when_told asked.pushed self.old }
    {
        if let Some(receipt) = asked.into_receipt() {
            self.hear(receipt);
        }
    }

    // Lands what is offered.
    fn land(&mut self, by: By) -> Result<(), DiskFault>
        requires offered { offered_batch self.old ≢ [] }
        ensures ok { OnOk result (HasHad (Land ∷ []) self.old.seat self.new.seat) }
        ensures err { OnErr result (HasHad (Failed by ∷ []) self.old.seat self.new.seat) }
        ensures requests { (self.new.room ≡ self.old.room) × (self.new.end ≡ self.old.end) }
        ensures knows { (f : Fact) → Knows node J.opening self.old.seat.sight f → Knows node J.opening self.new.seat.sight f }
        ensures cause { HasCause (D.faults self.old.trail.device) (D.faults self.new.trail.device) result }
    {
        match self.trail.gate() {
            Ok(()) => {
                self.seat.append(&MonitorEvent::Land);
                self.places += self.offered;
                self.offered = 0;
                Ok(())
            }
            Err(fault) => {
                self.seat.append(&MonitorEvent::Failed(by));
                Err(fault)
            }
        }
    }

    // Offers the requests of the room as one batch.
    fn offer(&mut self, by: By) -> Result<(), DiskFault>
        requires none { offered_batch self.old ≡ [] }
        requires some { 0 < length self.old.room }
        ensures ok { OnOk result (HasHad (Offer self.old.room ∷ []) self.old.seat self.new.seat) }
        ensures empty { OnOk result (self.new.room ≡ []) }
        ensures err { OnErr result (HasHad (Failed by ∷ []) self.old.seat self.new.seat) }
        ensures room { OnErr result (self.new.room ≡ self.old.room) }
        ensures end { self.new.end ≡ self.old.end }
        ensures knows { (f : Fact) → Knows node J.opening self.old.seat.sight f → Knows node J.opening self.new.seat.sight f }
        ensures cause { HasCause (D.faults self.old.trail.device) (D.faults self.new.trail.device) result }
    {
        match load_batch(&mut self.trail, self.room.requests()) {
            Ok(()) => {
                let requests = self.room.requests();
                self.seat.offer(requests);
                self.offered = requests.len() as u64;
                self.room.clear();
                Ok(())
            }
            Err(fault) => {
                self.seat.append(&MonitorEvent::Failed(by));
                Err(fault)
            }
        }
    }

    // Takes a request into the room, where it is later than all that were taken of its worker.
    fn enter(&mut self, request: MonitorRecord)
        requires few { length self.old.room < 64 }
        requires asked { IsAsked (Knows node J.opening self.old.seat.sight) J.found.epoch request }
        ensures taken { HasTakenOne self.old self.new request }
        ensures seat { self.new.seat ≡ self.old.seat }
    {
        if let Some(tx) = ended(request) {
            if self.room.accepts(tx) {
                let place = self.places + self.offered + self.room.requests().len() as u64 + 1;
                self.room.push(request, tx, place);
            }
        }
    }

    // Takes a request that was popped, whose note tells the seat what it asks.
    fn take(&mut self, waiting: Waiting<J>)
        requires { length self.old.room < 64 }
        ensures { HasTakenOne self.old self.new waiting }
    {
        let (request, note) = waiting.into_parts();
        self.seat.join(note);
        self.enter(request);
    }

    // Leaves the room's requests out.
    fn empty(&mut self)
        ensures { self.new ≡ record self.old { room = [] } }
    {
        self.room.empty();
    }

    // Takes requests into the empty room, in order: each that is later than all before it of its worker.
    fn retake(&mut self, requests: &[MonitorRecord])
        requires empty { self.old.room ≡ [] }
        requires few { length requests.now ≤ 64 }
        requires asked { AreAsked J.opening J.found.epoch self.old.seat requests.now }
        ensures taken { AreTaken (line self.old) requests.now self.new.room }
        ensures rest { self.new ≡ record self.old { room = self.new.room } }
    {
        for request in requests {
            self.enter(*request);
        }
    }

    // Lands what is offered, if anything is.
    fn land_offered(&mut self, by: By) -> Result<(), DiskFault>
        ensures ok { OnOk result (HasHad (landing (offered_batch self.old)) self.old.seat self.new.seat) }
        ensures err { OnErr result (HasHad (Failed by ∷ []) self.old.seat self.new.seat) }
        ensures requests { (self.new.room ≡ self.old.room) × (self.new.end ≡ self.old.end) }
        ensures knows { (f : Fact) → Knows node J.opening self.old.seat.sight f → Knows node J.opening self.new.seat.sight f }
        ensures cause { HasCause (D.faults self.old.trail.device) (D.faults self.new.trail.device) result }
    {
        if self.offered > 0 {
            self.land(by)?;
        }
        Ok(())
    }

    // Offers these requests as one batch. Those in the room are taken anew behind them.
    fn write(&mut self, by: By, requests: &[MonitorRecord]) -> Result<(), DiskFault>
        requires none { offered_batch self.old ≡ [] }
        requires next { IsNextCar J.opening J.found.epoch self.old requests.now }
        ensures ok { OnOk result (HasHad (Offer requests.now ∷ []) self.old.seat self.new.seat) }
        ensures taken { OnOk result (AreTaken (written self.old ++ requests.now) self.old.room self.new.room) }
        ensures err { OnErr result (HasHad (Failed by ∷ []) self.old.seat self.new.seat) }
        ensures room { OnErr result (self.new.room ≡ self.old.room) }
        ensures end { self.new.end ≡ self.old.end }
        ensures cause { HasCause (D.faults self.old.trail.device) (D.faults self.new.trail.device) result }
    {
        let aside = Aside::new(self.room.requests());
        self.empty();
        self.retake(requests);
        let answer = self.offer(by);
        self.empty();
        self.retake(aside.requests());
        answer
    }

    /// Writes one batch that holds exactly these requests in their order, and answers the place of the first. A batch that is offered lands
    /// before it. Requests that were popped are taken anew behind it. It takes no memory.
    pub fn car(&mut self, by: By, requests: &[MonitorRecord]) -> Result<u64, DiskFault>
        requires { IsNextCar J.opening J.found.epoch self.old requests.now }
        ensures car { IfOk result (HasCarOf requests.now self.old self.new) }
        ensures stopped { OnErr result (IsCarRefused by requests.now self.old self.new) }
        ensures end { self.new.end ≡ self.old.end }
        ensures cause { HasCause (D.faults self.old.trail.device) (D.faults self.new.trail.device) result }
    {
        self.land_offered(by)?;
        let first = self.places + 1;
        self.write(by, requests)?;
        self.land(by)?;
        Ok(first)
    }

    // Pops requests into the room, oldest first, until it is full or the queue is found empty.
    fn fill<R: Wait>(&mut self, rt: &R)
        ensures filled { HasFilled self.old self.new }
        ensures all { length self.new.room < 64 → HasFoundEmpty self.old.end self.new.end }
    {
        for _ in rt.forever() {
            if self.room.requests().len() >= MOST {
                return;
            }
            let Some(waiting) = self.end.pop(rt) else {
                return;
            };
            self.take(waiting);
        }
    }

    /// Whether the next car is held, which was held so often: never after 1,000 times, whatever decides. Requests are popped into the room
    /// first; where that has fewer than 64 then, a pop of this call found the queue empty.
    pub fn hold<R: Wait>(&mut self, rt: &R, holds: u32) -> bool
        ensures filled { HasFilled self.old self.new }
        ensures all { length self.new.room < 64 → HasFoundEmpty self.old.end self.new.end }
        ensures departs { 1000 ≤ holds → result ≡ false }
    {
        self.fill(rt);
        let waiting = self.room.requests().len() as u32;
        holds < HOLDS && self.decide.hold(waiting, holds)
    }

    /// Lands a batch that is offered, and no other; or else makes one car of the oldest requests, at most 64. It answers how many records the
    /// batch holds, and 0 where none is offered and no request is to be recorded. Where it makes a car of fewer than 64, a pop of this call
    /// found the queue empty. Where a call of the device fails, the requests stay in front of those in the queue. It takes no memory.
    pub fn next_car<R: Wait>(&mut self, rt: &R, by: By) -> Result<u64, DiskFault>
        ensures car { IfOk result (HasCar self.old self.new) }
        ensures stopped { OnErr result (IsHeldUp by self.old self.new) }
        ensures line { HasLine self.old self.new }
        ensures cause { HasCause (D.faults self.old.trail.device) (D.faults self.new.trail.device) result }
    {
        let offered = self.offered;
        if offered > 0 {
            self.land(by)?;
            return Ok(offered);
        }
        self.fill(rt);
        let count = self.room.requests().len() as u64;
        if count > 0 {
            self.offer(by)?;
            self.land(by)?;
        }
        Ok(count)
    }

    // Where the request stands, if it has landed and is the last of its worker.
    fn place_of(&self, request: MonitorRecord) -> Option<u64>
        requires { (t : Transid) → ended_by request ≡ Some t → t.worker ≤ 16 }
        ensures { IsPlaceOf self.now request result }
    {
        match self.room.place_of(request) {
            None => None,
            Some(place) if place <= self.places => Some(place),
            Some(_) => None,
        }
    }

    // Makes cars until the request has a place, or none is left to be made.
    fn drive<R: Wait>(
        &mut self,
        rt: &R,
        by: By,
        request: MonitorRecord,
    ) -> Result<Option<u64>, DiskFault>
        requires worker { (t : Transid) → ended_by request ≡ Some t → t.worker ≤ 16 }
        ensures place { IfOk result (IsPlaceOf self.new request) }
        ensures idle { IfOk result (λ found. found ≡ None → IsIdle self.new) }
        ensures line { HasLine self.old self.new }
        ensures driven { OnOk result (HasDriven self.old self.new) }
        ensures stopped { OnErr result (HasStopped by self.old self.new) }
    {
        for _ in rt.forever() {
            if let Some(place) = self.place_of(request) {
                return Ok(Some(place));
            }
            if self.next_car(rt, by)? == 0 {
                return Ok(self.place_of(request));
            }
        }
        unreachable!()
    }

    /// Makes cars until the request is recorded, as the caller has then seen, or none is left to be made.
    pub(crate) fn record<R: Wait>(
        &mut self,
        rt: &R,
        caller: &mut Seat<NodeMachine, J>,
        by: By,
        request: MonitorRecord,
    ) -> Result<Option<u64>, DiskFault>
        requires worker { (t : Transid) → ended_by request ≡ Some t → t.worker ≤ 16 }
        ensures seen { IfOk result (λ found. IfSome found (λ place. Knows node J.opening caller.new (Recorded request place))) }
        ensures none { IfOk result (λ found. found ≡ None → IsIdle self.new × (MayBeLast (line self.new) request → IsNext (line self.new) request)) }
        ensures backed { (x : MonitorRecord) → Among (line self.new) x → IsBacked (Knows node J.opening caller.new) x }
        ensures line { HasLine self.old self.new }
        ensures grown { HasGrown caller.old caller.new }
        ensures failed { OnErr result (HasNewlySeen monitor_part (OfMonitor (Failed by)) caller.old caller.new) }
        ensures opens { J.opening ≡ opening_parts J.found }
    {
        self.meet(caller);
        let place = self.drive(rt, by, request);
        self.meet(caller);
        place
    }

    /// Makes a car of one request that was not taken, where all that was taken has landed. It is recorded then, as the caller has seen.
    pub(crate) fn record_alone(
        &mut self,
        caller: &mut Seat<NodeMachine, J>,
        by: By,
        waiting: Waiting<J>,
    ) -> Result<u64, DiskFault>
        requires idle { IsIdle self.old }
        requires next { IsNext (line self.old) waiting }
        ensures seen { IfOk result (λ place. Knows node J.opening caller.new (Recorded waiting place)) }
        ensures line { HasLineFor waiting self.old self.new }
        ensures grown { HasGrown caller.old caller.new }
        ensures failed { OnErr result (HasNewlySeen monitor_part (OfMonitor (Failed by)) caller.old caller.new) }
    {
        self.meet(caller);
        let place = self.car_of(by, waiting);
        self.meet(caller);
        place
    }

    // Takes a request and writes it as a car of its own.
    fn car_of(&mut self, by: By, waiting: Waiting<J>) -> Result<u64, DiskFault>
        requires idle { IsIdle self.old }
        requires next { IsNext (line self.old) waiting }
        ensures place { IfOk result (StandsAt self.new.seat.part waiting) }
        ensures line { HasLineFor waiting self.old self.new }
        ensures driven { OnOk result (HasDriven self.old self.new) }
        ensures stopped { OnErr result (HasStopped by self.old self.new) }
    {
        self.take(waiting);
        self.offer(by)?;
        self.land(by)?;
        Ok(self.places)
    }
}
