ghost use Rattle.std.specs.Prelude.{◌≡◌, ◌+◌, ◌<◌, length, slice_index_or, true, false, OnOk, OnErr};
ghost use Rattle.wasi_script.specs.Grammar.{Names, may_stand, may_declare, budget_stands, may_set_up, context_stands, input_stands, output_stands, setting_stands, turn_stands, names_after, no_names, is_among};
ghost use Rattle.wasi_script.specs.Declarations.{input_flags, output_flags, context_at};
ghost use Rattle.wasi_script.specs.declared.lines.Line.TheVariants as line;

use crate::lines::{
    Context, Input, InputDeclaration, Line, Output, OutputDeclaration, Setting, StreamTask,
};
use crate::name::Name;
use crate::name_set::{NameSet, StreamFlags};
use std::alloc::Global;
use wasi_base::OutOfMemory;

/// Something that knows which guests, inputs and outputs there are, and which guests have called:
/// what a parser took down of the lines so far, or a session that did them.
pub trait Declared {
    /// The names of what was declared.
    ghost names: { Self → Names };

    /// How many inputs and outputs there are together.
    fn stream_count(&self) -> usize
        ensures { result ≡ length (names self.now).inputs + length (names self.now).outputs };

    /// Whether there is an input of this name.
    fn has_input(&self, name: &[u8]) -> bool
        ensures { result ≡ is_among name.now (names self.now).inputs };

    /// Whether there is an output of this name.
    fn has_output(&self, name: &[u8]) -> bool
        ensures { result ≡ is_among name.now (names self.now).outputs };

    /// Whether there is a guest of this number.
    fn has_guest(&self, guest: u32) -> bool
        ensures { result ≡ (names self.now).is_guest guest };

    /// Whether the guest of this number has called.
    fn was_called(&self, guest: u32) -> bool
        ensures { result ≡ (names self.now).was_called guest };

    /// Whether the guest has a named context of this number.
    fn has_context(&self, guest: u32, id: u32) -> bool
        ensures { result ≡ (names self.now).is_context guest id };

    /// Whether there is an input of this name that a task reads ahead.
    fn reads_ahead(&self, name: &[u8]) -> bool
        ensures { result ≡ (names self.now).reads_ahead name.now };

    /// Whether there is an output of this name that buffers what it accepts for a task.
    fn writes_behind(&self, name: &[u8]) -> bool
        ensures { result ≡ (names self.now).writes_behind name.now };

    /// Whether there is an output of this name that is a standard output of the host's process.
    fn has_stdio(&self, name: &[u8]) -> bool
        ensures { result ≡ (names self.now).has_stdio name.now };

    /// Whether a line may stand after what was declared.
    final fn allow(&self, line: &Line) -> bool
        ensures { result ≡ may_stand (names self.now) line.now }
    {
        match line {
            Line::Input { name, input: _ } => self.allow_name(name),
            Line::Output { name, output } => self.allow_name(name) && has_budget(output),
            Line::Guest { guest, input } => {
                *guest < 64 && (!self.has_guest(*guest) && self.allow_input(input))
            }
            Line::Context { guest, id, input } => {
                self.allow_set_up(*guest)
                    && (*id < 16 && (!self.has_context(*guest, *id) && self.allow_input(input)))
            }
            Line::Capacity { guest, capacity } => {
                self.allow_set_up(*guest) && (1 <= *capacity && *capacity <= 65536)
            }
            Line::Configure { context, setting } => {
                self.allow_set_up(context.guest)
                    && (self.allow_context(context) && self.allow_setting(setting))
            }
            Line::Call { context, call: _ } => {
                self.has_guest(context.guest) && self.allow_context(context)
            }
            Line::Worker(_) | Line::Clock(_) => true,
            Line::Turn(task) => self.allow_turn(task),
        }
    }

    /// Whether a stream may be declared under a name.
    final fn allow_name(&self, name: &Name) -> bool
        ensures { result ≡ may_declare (names self.now) name.now }
    {
        let name = name.as_bytes();
        self.stream_count() < 64 && (!self.has_input(name) && !self.has_output(name))
    }

    /// Whether lines may say more of a guest.
    final fn allow_set_up(&self, guest: u32) -> bool
        ensures { result ≡ may_set_up (names self.now) guest }
    {
        self.has_guest(guest) && !self.was_called(guest)
    }

    /// Whether a declared guest has this context.
    final fn allow_context(&self, context: &Context) -> bool
        ensures { result ≡ context_stands (names self.now) context.now }
    {
        match context.named {
            None => true,
            Some(id) => self.has_context(context.guest, id),
        }
    }

    /// Whether they may say this of one of its contexts.
    final fn allow_setting(&self, setting: &Setting) -> bool
        ensures { result ≡ setting_stands (names self.now) setting.now }
    {
        match setting {
            Setting::Stdout(output) | Setting::Stderr(output) => self.allow_output(output),
            Setting::Random { source: _, bytes } => 1 <= bytes.len(),
            Setting::Seeded { .. } | Setting::InsecureSeed(_) | Setting::MaxRandom(_) => true,
            Setting::Env { .. } | Setting::Arg(_) | Setting::Cwd(_) => true,
        }
    }

    /// Whether a guest may have this input.
    final fn allow_input(&self, input: &Input) -> bool
        ensures { result ≡ input_stands (names self.now) input.now }
    {
        match input {
            Input::Shared | Input::Terminal | Input::Empty | Input::Closed => true,
            Input::Named(name) => self.has_input(name.as_bytes()),
        }
    }

    /// Whether a guest may have this output.
    final fn allow_output(&self, output: &Output) -> bool
        ensures { result ≡ output_stands (names self.now) output.now }
    {
        match output {
            Output::Empty | Output::Sink | Output::Closed => true,
            Output::Named(name) => self.has_output(name.as_bytes()),
            Output::Terminal(name) => self.has_stdio(name.as_bytes()),
        }
    }

    /// Whether this task may have its turn.
    final fn allow_turn(&self, task: &StreamTask) -> bool
        ensures { result ≡ turn_stands (names self.now) task.now }
    {
        match task {
            StreamTask::Reader(name) => self.reads_ahead(name.as_bytes()),
            StreamTask::Writer(name) => self.writes_behind(name.as_bytes()),
        }
    }
}

// a named context's flag
fn has_context_flag(flags: &[bool; 1024], guest: u32, id: u32) -> bool
    ensures { result ≡ context_at flags.now guest id }
{
    guest < 64 && (id < 16 && flags[guest as usize * 16 + id as usize])
}

// a buffered output's budget is one byte at least
fn has_budget(output: &OutputDeclaration) -> bool
    ensures { result ≡ budget_stands output.now }
{
    match output {
        OutputDeclaration::Buffered { budget, .. } => 1 <= *budget,
        OutputDeclaration::Pipe { .. }
        | OutputDeclaration::File { .. }
        | OutputDeclaration::Stdio { .. } => true,
    }
}

fn input_flags(input: &InputDeclaration) -> StreamFlags
    ensures { result ≡ input_flags input.now }
{
    StreamFlags {
        has_task: matches!(input, InputDeclaration::Async { .. }),
        is_stdio: false,
    }
}

fn output_flags(output: &OutputDeclaration) -> StreamFlags
    ensures { result ≡ output_flags output.now }
{
    StreamFlags {
        has_task: matches!(output, OutputDeclaration::Buffered { .. }),
        is_stdio: matches!(output, OutputDeclaration::Stdio { .. }),
    }
}

// a guest's flag
fn has_flag(flags: &[bool; 64], guest: u32) -> bool
    ensures { result ≡ slice_index_or flags.now guest false }
{
    guest < 64 && flags[guest as usize]
}

/// What the lines so far declared: guests and their named contexts, inputs and outputs, and which of
/// the guests have called.
#[derive(Drop)]
pub struct Declarations {
    declared: [bool; 64],
    called: [bool; 64],
    // 16 for each guest
    contexts: [bool; 1024],
    inputs: NameSet,
    outputs: NameSet,
}

impl Declared for Declarations {
    ghost use Rattle.wasi_script.specs.Declarations.{names_in};

    ghost names = { names_in };

    fn stream_count(&self) -> usize {
        self.inputs.len() + self.outputs.len()
    }

    fn has_input(&self, name: &[u8]) -> bool {
        self.inputs.contains(name)
    }

    fn has_output(&self, name: &[u8]) -> bool {
        self.outputs.contains(name)
    }

    fn has_guest(&self, guest: u32) -> bool {
        has_flag(&self.declared, guest)
    }

    fn was_called(&self, guest: u32) -> bool {
        has_flag(&self.called, guest)
    }

    fn has_context(&self, guest: u32, id: u32) -> bool {
        has_context_flag(&self.contexts, guest, id)
    }

    fn reads_ahead(&self, name: &[u8]) -> bool {
        self.inputs.has_task(name)
    }

    fn writes_behind(&self, name: &[u8]) -> bool {
        self.outputs.has_task(name)
    }

    fn has_stdio(&self, name: &[u8]) -> bool {
        self.outputs.has_stdio(name)
    }
}

impl Declarations {
    ghost use Rattle.wasi_script.specs.Declarations.{names_in};

    pub fn none(alloc: Global) -> Self
        ensures { names_in result ≡ no_names }
    {
        Declarations {
            declared: [false; 64],
            called: [false; 64],
            contexts: [false; 1024],
            inputs: NameSet::none(alloc),
            outputs: NameSet::none(alloc),
        }
    }

    /// Takes down what a line declares, and whose call it is.
    pub fn declare(&mut self, alloc: Global, line: &Line) -> Result<(), OutOfMemory>
        requires { may_stand (names_in self.old) line.now ≡ true }
        ensures ok { OnOk result (names_in self.new ≡ names_after (names_in self.old) line.now) }
        ensures err { OnErr result (names_in self.new ≡ names_in self.old) }
    {
        match line {
            Line::Input { name, input } => {
                self.inputs.add(alloc, name.as_bytes(), input_flags(input))?;
            }
            Line::Output { name, output } => {
                self.outputs
                    .add(alloc, name.as_bytes(), output_flags(output))?;
            }
            Line::Guest { guest, input: _ } => self.declared[*guest as usize] = true,
            Line::Context { guest, id, .. } => {
                self.contexts[*guest as usize * 16 + *id as usize] = true;
            }
            Line::Call { context, call: _ } => self.called[context.guest as usize] = true,
            Line::Capacity { .. }
            | Line::Configure { .. }
            | Line::Worker(_)
            | Line::Turn(_)
            | Line::Clock(_) => {}
        }
        Ok(())
    }
}
