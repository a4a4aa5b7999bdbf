ghost use Rattle.std.specs.Prelude.{◌≡◌, map, IfOk, OnOk, OnErr, IsSome, Some};
ghost use Rattle.std.specs.Option.{option_copied, option_map};
ghost use Rattle.dy_syntax.specs.Meaning.{decl_of, handler_of};
ghost use Rattle.dy_syntax.specs.LookUps.{handler_named};
ghost use Rattle.dy_eval.specs.Past.{HasEachVersionOnce};
ghost use Rattle.dy_eval.specs.Starts.{opening};
ghost use Rattle.dy_eval.specs.Runs.{Goes};
ghost use Rattle.dy_eval.specs.Meaning.{left_of, standing_of};
ghost use Rattle.dy_eval.specs.Turns.{IsAsked, next_asked, emit_of, standing_after, HasRoomForVersions};
ghost use Rattle.dy_eval.specs.TakenMeaning.{next_of_taken};
ghost use Rattle.dy_eval.specs.MirrorTurns.{OnlyWrites, Told};

use crate::instances::{Instance, Stand};
use crate::items::Emit;
use crate::names::Names;
use crate::past::Past;
use crate::starting::{first_number, lines_of, written_first};
use crate::steps::{Taken, append_written, take_lines};
use crate::written::Written;
use dy_flat::{FlatTerm, name, nonce};
use dy_syntax::{File, Handler, handler_named};
use dy_term::{Memory, Word};
use std::alloc::Global;

impl Instance {
    /// Starts an instance of a handler.
    fn of_handler(
        alloc: Global,
        file: &File,
        handler: &Handler,
        principal: &Word,
        session: u32,
        args: &[Word],
        message: Option<&FlatTerm>,
    ) -> Result<Instance, Memory>
        ensures { IfOk result (λ instance. standing_of instance ≡ Goes (opening (map decl_of file.now.decls)
            (handler_of handler.now) principal.now session args.now (option_copied message.entry))) }
    {
        let lines = lines_of(alloc, file.decls.as_slice(), handler)?;
        let first = first_number(handler);
        if lines.len() >= u32::MAX as usize {
            return Err(Memory);
        }
        Ok(Instance {
            names: Names {
                alloc,
                me: name(alloc, principal)?,
                principal: principal.copy(),
                session,
                written: written_first(alloc, handler, args, message)?,
            },
            lines,
            first,
            at: 0,
            stand: Stand::Goes,
        })
    }

    /// Starts a handler of a file: by this principal, in this session, and with these names for its arguments. It
    /// is given the message that it receives, if it receives one. The file declares the handler. It refuses out of
    /// memory alone.
    pub fn begin(
        alloc: Global,
        file: &File,
        handler: &Word,
        principal: &Word,
        session: u32,
        args: &[Word],
        message: Option<&FlatTerm>,
    ) -> Result<Instance, Memory>
        requires { IsSome (handler_named (map decl_of file.now.decls) handler.now) }
        ensures { IfOk result (λ instance. Some (standing_of instance)
            ≡ option_map (λ h. Goes (opening (map decl_of file.now.decls) h principal.now session args.now
            (option_copied message.entry))) (handler_named (map decl_of file.now.decls) handler.now)) }
    {
        match handler_named(file.decls.as_slice(), handler) {
            Some(found) => {
                Instance::of_handler(alloc, file, found, principal, session, args, message)
            }
            None => unreachable!(),
        }
    }

    /// Writes the nonce of an index in place of the word where it is due, if it is. Out of memory, nothing is written.
    fn tell(&mut self, landed: Option<u32>) -> Result<(), Memory>
        requires { IsAsked (standing_of self.old) landed }
        ensures kept { OnlyWrites self.old self.new }
        ensures ok { OnOk result (Told (standing_of self.old) landed (left_of self.new)) }
    {
        if let (Stand::Awaits(Some(word)), Some(index)) = (&self.stand, landed) {
            let bytes = nonce(self.names.alloc, index)?;
            let mut due = Vec::new(self.names.alloc);
            due.push(Written {
                word: word.copy(),
                bytes,
            })?;
            append_written(&mut self.names, due)?;
        }
        Ok(())
    }

    /// Takes lines up to the first one that puts an item or fails. It refuses out of memory alone.
    fn take_turn<P: Past>(&mut self, past: &P, landed: Option<u32>) -> Result<Taken, Memory>
        requires once { HasEachVersionOnce (P.trace past.now) }
        requires room { HasRoomForVersions (P.trace past.now) }
        requires asked { IsAsked (standing_of self.old) landed }
        ensures kept { OnlyWrites self.old self.new }
        ensures next { IfOk result (λ taken. next_of_taken self.new.names self.new.first self.new.lines taken
            ≡ next_asked (P.trace past.now) (standing_of self.old) landed) }
    {
        self.tell(landed)?;
        take_lines(
            &mut self.names,
            past,
            self.lines.as_slice(),
            self.first,
            self.at,
        )
    }

    /// Takes note of what came of taking lines.
    fn settle(&mut self, taken: Taken) -> Emit
        ensures emit { result ≡ emit_of (next_of_taken self.old.names self.old.first self.old.lines taken) }
        ensures stands { standing_of self.new
            ≡ standing_after (next_of_taken self.old.names self.old.first self.old.lines taken) }
    {
        match taken {
            Taken::Puts(item, binds, at) => {
                self.at = at;
                self.stand = Stand::Awaits(binds);
                Emit::Put(item)
            }
            Taken::Ends(outcome) => {
                self.stand = Stand::Ended(outcome);
                Emit::End(outcome)
            }
        }
    }

    /// What the instance does next: it puts an item, or it ends. `landed` is the index of the entry of its last item,
    /// and is given exactly where the last answer other than `Memory` was `Put`. The instance has not ended. `past` is
    /// the trace before its `Start`. In it each version stands once, and has a number below 2^32 - 1. Out of memory,
    /// the one refusal, the instance is as it was.
    pub fn next<P: Past>(&mut self, past: &P, landed: Option<u32>) -> Result<Emit, Memory>
        requires once { HasEachVersionOnce (P.trace past.now) }
        requires room { HasRoomForVersions (P.trace past.now) }
        requires asked { IsAsked (standing_of self.old) landed }
        ensures emit { IfOk result (λ emit.
            emit ≡ emit_of (next_asked (P.trace past.now) (standing_of self.old) landed)) }
        ensures stands { OnOk result (standing_of self.new
            ≡ standing_after (next_asked (P.trace past.now) (standing_of self.old) landed)) }
        ensures memory { OnErr result (standing_of self.new ≡ standing_of self.old) }
    {
        let before = self.names.written.len();
        match self.take_turn(past, landed) {
            Ok(taken) => Ok(self.settle(taken)),
            Err(_) => {
                self.names.written.truncate(before);
                Err(Memory)
            }
        }
    }
}
