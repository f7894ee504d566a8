// The driver's calls, recorded.
ghost use Rattle.std.specs.Prelude.{◌≡◌, ◌+◌, ◌≤◌, ◌++◌, length, vec_capacity};
ghost use Rattle.call_trace.specs.Recorded.{IfNotMade, Records};
ghost use Rattle.driver.specs.Passes.{IsOf};
ghost use Rattle.driver_model.specs.declared.calls.Call.TheVariants as Call;
ghost use Rattle.driver_model.specs.declared.replies.Answer.TheVariants as Answer;
ghost use Rattle.driver_objects.specs.Flips.{flipped};
ghost use Rattle.trace_records.specs.Traces.{records_of};

use super::recorder::{Recorded, Recorder};
use super::room::{has_room, put};
use driver::{Driver, Flips, Pass, Shown};
use driver_model::MAX_QUEUES;
use std::alloc::Global;
use std::sync::Wait;
use trace_records::{Event, Record};

impl Recorder {
    /// Makes a device, as the driver does, and records it.
    pub fn device_create<R: Wait>(
        &mut self,
        rt: &R,
        alloc: Global,
        driver: &Driver,
        pass: Pass,
    ) -> Recorded<u32>
        requires { IsOf pass driver.now }
        ensures { Records self.old pass Call.DeviceCreate Answer.Name self.new result }
    {
        if !has_room(&mut self.records, 1) {
            return Recorded::NoRoom(pass);
        }
        let answered = driver.device_create(rt, alloc, pass);
        if let Ok(name) = answered.result {
            put(
                &mut self.records,
                answered.place,
                Event::DeviceCreate { name },
            );
        }
        Recorded::Made(answered)
    }

    /// Destroys a device with all that was made on it, and records it.
    pub fn device_destroy<R: Wait>(
        &mut self,
        rt: &R,
        driver: &Driver,
        pass: Pass,
        device: u32,
    ) -> Recorded<()>
        requires { IsOf pass driver.now }
        ensures { Records self.old pass (Call.DeviceDestroy device) (λ _. Answer.Done) self.new result }
    {
        if !has_room(&mut self.records, 1) {
            return Recorded::NoRoom(pass);
        }
        let answered = driver.device_destroy(rt, pass, device);
        if let Ok(()) = answered.result {
            put(
                &mut self.records,
                answered.place,
                Event::DeviceDestroy { device },
            );
        }
        Recorded::Made(answered)
    }

    /// Makes an output surface, and records it without its format and its sides.
    pub fn output_create<R: Wait>(
        &mut self,
        rt: &R,
        alloc: Global,
        driver: &Driver,
        pass: Pass,
        device: u32,
        format: u32,
        width: u32,
        height: u32,
    ) -> Recorded<u32>
        requires { IsOf pass driver.now }
        ensures { Records self.old pass (Call.OutputCreate device format width height) Answer.Name self.new result }
    {
        if !has_room(&mut self.records, 1) {
            return Recorded::NoRoom(pass);
        }
        let answered = driver.output_create(rt, alloc, pass, device, format, width, height);
        if let Ok(name) = answered.result {
            put(
                &mut self.records,
                answered.place,
                Event::OutputCreate { name, device },
            );
        }
        Recorded::Made(answered)
    }

    /// Destroys an output surface, and records it.
    pub fn output_destroy<R: Wait>(
        &mut self,
        rt: &R,
        driver: &Driver,
        pass: Pass,
        surface: u32,
    ) -> Recorded<()>
        requires { IsOf pass driver.now }
        ensures { Records self.old pass (Call.OutputDestroy surface) (λ _. Answer.Done) self.new result }
    {
        if !has_room(&mut self.records, 1) {
            return Recorded::NoRoom(pass);
        }
        let answered = driver.output_destroy(rt, pass, surface);
        if let Ok(()) = answered.result {
            put(
                &mut self.records,
                answered.place,
                Event::OutputDestroy { surface },
            );
        }
        Recorded::Made(answered)
    }

    /// Makes a presentation queue that shows in this window, and records it.
    pub fn queue_create<R: Wait>(
        &mut self,
        rt: &R,
        alloc: Global,
        driver: &Driver,
        pass: Pass,
        device: u32,
        window: u32,
    ) -> Recorded<u32>
        requires { IsOf pass driver.now }
        ensures { Records self.old pass (Call.QueueCreate device window) Answer.Name self.new result }
    {
        if !has_room(&mut self.records, 1) {
            return Recorded::NoRoom(pass);
        }
        let answered = driver.queue_create(rt, alloc, pass, device, window);
        if let Ok(name) = answered.result {
            put(
                &mut self.records,
                answered.place,
                Event::QueueCreate {
                    name,
                    device,
                    window,
                },
            );
        }
        Recorded::Made(answered)
    }

    /// Destroys a presentation queue, and records it.
    pub fn queue_destroy<R: Wait>(
        &mut self,
        rt: &R,
        driver: &Driver,
        pass: Pass,
        queue: u32,
    ) -> Recorded<()>
        requires { IsOf pass driver.now }
        ensures { Records self.old pass (Call.QueueDestroy queue) (λ _. Answer.Done) self.new result }
    {
        if !has_room(&mut self.records, 1) {
            return Recorded::NoRoom(pass);
        }
        let answered = driver.queue_destroy(rt, pass, queue);
        if let Ok(()) = answered.result {
            put(
                &mut self.records,
                answered.place,
                Event::QueueDestroy { queue },
            );
        }
        Recorded::Made(answered)
    }

    /// Puts a surface behind what waits on a queue, and records it.
    pub fn queue_display<R: Wait>(
        &mut self,
        rt: &R,
        driver: &Driver,
        pass: Pass,
        queue: u32,
        surface: u32,
        earliest: u64,
    ) -> Recorded<()>
        requires { IsOf pass driver.now }
        ensures { Records self.old pass (Call.QueueDisplay queue surface earliest) (λ _. Answer.Done) self.new result }
    {
        if !has_room(&mut self.records, 1) {
            return Recorded::NoRoom(pass);
        }
        let answered = driver.queue_display(rt, pass, queue, surface, earliest);
        if let Ok(()) = answered.result {
            put(
                &mut self.records,
                answered.place,
                Event::QueueDisplay {
                    queue,
                    surface,
                    earliest,
                },
            );
        }
        Recorded::Made(answered)
    }

    /// Asks how a surface stands to the queues, and records the answer.
    pub fn query_status<R: Wait>(
        &mut self,
        rt: &R,
        driver: &Driver,
        pass: Pass,
        queue: u32,
        surface: u32,
    ) -> Recorded<Shown>
        requires { IsOf pass driver.now }
        ensures { Records self.old pass (Call.QueryStatus queue surface) Answer.Status self.new result }
    {
        if !has_room(&mut self.records, 1) {
            return Recorded::NoRoom(pass);
        }
        let answered = driver.query_status(rt, pass, queue, surface);
        if let Ok(shown) = answered.result {
            put(
                &mut self.records,
                answered.place,
                Event::QueryStatus {
                    queue,
                    surface,
                    status: shown.status,
                    time: shown.first_time,
                },
            );
        }
        Recorded::Made(answered)
    }

    /// Waits until a surface is idle, and records the answer.
    pub fn block_until_idle<R: Wait>(
        &mut self,
        rt: &R,
        driver: &Driver,
        pass: Pass,
        queue: u32,
        surface: u32,
    ) -> Recorded<u64>
        requires { IsOf pass driver.now }
        ensures { Records self.old pass (Call.BlockUntilIdle queue surface) Answer.Time self.new result }
    {
        if !has_room(&mut self.records, 1) {
            return Recorded::NoRoom(pass);
        }
        let answered = driver.block_until_idle(rt, pass, queue, surface);
        if let Ok(time) = answered.result {
            put(
                &mut self.records,
                answered.place,
                Event::BlockUntilIdle {
                    queue,
                    surface,
                    time,
                },
            );
        }
        Recorded::Made(answered)
    }

    /// Asks what the clock of a queue's device stands at, and records the answer.
    pub fn get_time<R: Wait>(
        &mut self,
        rt: &R,
        driver: &Driver,
        pass: Pass,
        queue: u32,
    ) -> Recorded<u64>
        requires { IsOf pass driver.now }
        ensures { Records self.old pass (Call.GetTime queue) Answer.Time self.new result }
    {
        if !has_room(&mut self.records, 1) {
            return Recorded::NoRoom(pass);
        }
        let answered = driver.get_time(rt, pass, queue);
        if let Ok(time) = answered.result {
            put(
                &mut self.records,
                answered.place,
                Event::GetTime { queue, time },
            );
        }
        Recorded::Made(answered)
    }

    /// Promises that nothing earlier is displayed on the queue, and records it.
    pub fn promise<R: Wait>(
        &mut self,
        rt: &R,
        driver: &Driver,
        pass: Pass,
        queue: u32,
        time: u64,
    ) -> Recorded<()>
        requires { IsOf pass driver.now }
        ensures { Records self.old pass (Call.Promise queue time) (λ _. Answer.Done) self.new result }
    {
        if !has_room(&mut self.records, 1) {
            return Recorded::NoRoom(pass);
        }
        let answered = driver.promise(rt, pass, queue, time);
        if let Ok(()) = answered.result {
            put(
                &mut self.records,
                answered.place,
                Event::Promise { queue, time },
            );
        }
        Recorded::Made(answered)
    }

    /// Takes the display away from a device, and records it.
    pub fn preempt<R: Wait>(
        &mut self,
        rt: &R,
        driver: &Driver,
        pass: Pass,
        device: u32,
    ) -> Recorded<()>
        requires { IsOf pass driver.now }
        ensures { Records self.old pass (Call.Preempt device) (λ _. Answer.Done) self.new result }
    {
        if !has_room(&mut self.records, 1) {
            return Recorded::NoRoom(pass);
        }
        let answered = driver.preempt(rt, pass, device);
        if let Ok(()) = answered.result {
            put(&mut self.records, answered.place, Event::Preempt { device });
        }
        Recorded::Made(answered)
    }

    /// A tick of a device's clock, and records it with its flips, which `flips` then holds, as the driver gives them.
    pub fn advance<R: Wait>(
        &mut self,
        rt: &R,
        alloc: Global,
        driver: &Driver,
        pass: Pass,
        device: u32,
        time: u64,
        flips: &mut Flips,
    ) -> Recorded<()>
        requires { IsOf pass driver.now }
        ensures records { Records self.old pass (Call.Advance device time) (λ _. Answer.Flips (flipped flips.new)) self.new result }
        ensures stays { IfNotMade result (flips.new ≡ flips.old) }
    {
        if !has_room(&mut self.records, 1 + MAX_QUEUES as usize) {
            return Recorded::NoRoom(pass);
        }
        let answered = driver.advance(rt, alloc, pass, device, time, flips);
        if answered.result.is_ok() {
            put_tick(&mut self.records, answered.place, device, time, flips);
        }
        Recorded::Made(answered)
    }
}

// Puts a tick with its flips behind the other records.
fn put_tick(records: &mut Vec<Record>, place: u64, device: u32, time: u64, flips: &Flips)
    requires few { length (flipped flips.now) ≤ 64 }
    requires room { length records.old.items + 65 ≤ vec_capacity records.old }
    ensures { records.new.items ≡ records.old.items ++ records_of place (Call.Advance device time) (Ok (Answer.Flips (flipped flips.now))) }
{
    let count = flips.len();
    put(
        records,
        place,
        Event::Advance {
            device,
            flips: count as u64,
            time,
        },
    );
    for i in 0..count {
        let flip = flips.get(i);
        put(
            records,
            place,
            Event::Flip {
                queue: flip.queue,
                surface: flip.surface,
                time: flip.time,
            },
        );
    }
}
