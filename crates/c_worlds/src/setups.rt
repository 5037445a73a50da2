ghost use Rattle.std.specs.Prelude.{◌≡◌, ◌≢◌, None, IfErr, IfOk, OnOk};
ghost use Rattle.c_objects.specs.declared.code.TheConstants.{NO_MEMORY, WRONG_OBJECT};
ghost use Rattle.c_objects.specs.declared.kept.Kept.TheVariants as kept_as;
ghost use Rattle.c_worlds.specs.Setups.{add_code, added, added_code, create_code, created};
ghost use Rattle.c_worlds.specs.Setups.{read_after, read_answer, read_at, share_code, shared};
ghost use Rattle.c_worlds.specs.Setups.{stage_add_code, stage_added, stage_after, stage_at};
ghost use Rattle.c_worlds.specs.Setups.{stage_code};

use crate::fault_at::{CFault, fault_of};
use base::NoMemory;
use c_objects::{BAD_ARGUMENT, FAULT, FULL, Kept, NO_MEMORY, OK, Object, WRONG_OBJECT};
use setup_files::{SetupFault, Stage};
use std::alloc::Global;

/// The number by which a file of rules is added.
pub const RULES: u32 = 0;

/// The number by which a map is added.
pub const MAP: u32 = 1;

/// Makes an empty object a setup without files. `WRONG_OBJECT` where it is not empty.
pub fn setup_create(setup: &mut Object, alloc: Global) -> u32
    ensures code { result ≢ NO_MEMORY → result ≡ create_code setup.old.held.held }
    ensures after { result ≢ NO_MEMORY → setup.new.held.held ≡ created setup.old.held.held }
    ensures memory { result ≡ NO_MEMORY → setup.new.held.held ≡ setup.old.held.held }
{
    if !setup.is_empty() {
        return WRONG_OBJECT;
    }
    match Box::new(alloc, Kept::Setup(Stage::new(alloc))) {
        Ok(kept) => {
            setup.put(kept);
            OK
        }
        Err(_) => NO_MEMORY,
    }
}

/// The code for a file that was added, or had no room.
fn code_of(added: Result<bool, NoMemory>) -> u32
    ensures { result ≡ added_code added }
{
    match added {
        Ok(true) => OK,
        Ok(false) => FULL,
        Err(_) => NO_MEMORY,
    }
}

/// Adds a copy of a file to a setup, as [`setup_add`] does.
fn add_to(stage: &mut Stage, alloc: Global, what: u32, bytes: &[u8]) -> u32
    ensures code { result ≢ NO_MEMORY → result ≡ stage_add_code stage.old what }
    ensures after { result ≢ NO_MEMORY → stage.new ≡ stage_added stage.old what bytes.now }
    ensures memory { result ≡ NO_MEMORY → stage.new ≡ stage.old }
{
    if stage.is_read() {
        return WRONG_OBJECT;
    }
    if what == RULES {
        return code_of(stage.add_rules(alloc, bytes));
    }
    if what == MAP {
        return code_of(stage.add_map(alloc, bytes));
    }
    BAD_ARGUMENT
}

/// Adds a copy of a file to a setup that was not read yet: of rules, after the others, or of a map.
/// `FULL` at a rule file after 64 and at a second map, `BAD_ARGUMENT` where `what` is neither
/// [`RULES`] nor [`MAP`].
pub fn setup_add(setup: &mut Object, alloc: Global, what: u32, bytes: &[u8]) -> u32
    ensures code { result ≢ NO_MEMORY → result ≡ add_code setup.old.held.held what }
    ensures after { result ≢ NO_MEMORY
        → setup.new.held.held ≡ added setup.old.held.held what bytes.now }
    ensures memory { result ≡ NO_MEMORY → setup.new.held.held ≡ setup.old.held.held }
{
    let Some(mut kept) = setup.take(alloc) else {
        return WRONG_OBJECT;
    };
    let code = match &mut *kept {
        Kept::Setup(stage) => add_to(stage, alloc, what, bytes),
        _ => WRONG_OBJECT,
    };
    setup.put(kept);
    code
}

/// Reads the files of a setup, as [`setup_read`] does.
fn read_in(stage: &mut Stage, alloc: Global, at: &mut CFault) -> u32
    ensures code { result ≢ NO_MEMORY → result ≡ stage_code stage.old }
    ensures after { result ≢ NO_MEMORY → stage.new ≡ stage_after stage.old }
    ensures at { result ≢ NO_MEMORY → at.new ≡ stage_at stage.old at.old }
    ensures memory { result ≡ NO_MEMORY → stage.new ≡ stage.old }
    ensures same { result ≡ NO_MEMORY → at.new ≡ at.old }
{
    if stage.is_read() {
        return WRONG_OBJECT;
    }
    match stage.read(alloc) {
        Ok(()) => OK,
        Err(SetupFault::NoMemory) => NO_MEMORY,
        Err(fault) => {
            *at = fault_of(&fault, stage.rule_count());
            FAULT
        }
    }
}

/// Reads the files of a setup that was not read yet. `FAULT` where they have one: then their first
/// is written. Else worlds can be made, and no more files are taken.
pub fn setup_read(setup: &mut Object, alloc: Global, at: &mut CFault) -> u32
    ensures code { result ≢ NO_MEMORY → result ≡ read_answer setup.old.held.held }
    ensures after { result ≢ NO_MEMORY → setup.new.held.held ≡ read_after setup.old.held.held }
    ensures at { result ≢ NO_MEMORY → at.new ≡ read_at setup.old.held.held at.old }
    ensures memory { result ≡ NO_MEMORY → setup.new.held.held ≡ setup.old.held.held }
    ensures same { result ≡ NO_MEMORY → at.new ≡ at.old }
{
    let Some(mut kept) = setup.take(alloc) else {
        return WRONG_OBJECT;
    };
    let code = match &mut *kept {
        Kept::Setup(stage) => read_in(stage, alloc, at),
        _ => WRONG_OBJECT,
    };
    setup.put(kept);
    code
}

/// The same setup, read anew from copies of its files, or the code for why there is none.
fn again(stage: &Stage, alloc: Global) -> Result<Box<Kept>, u32>
    ensures code { IfErr result (λ code. code ≢ NO_MEMORY → stage.now.made ≡ None) }
    ensures wrong { IfErr result (λ code. code ≢ NO_MEMORY → code ≡ WRONG_OBJECT) }
    ensures made { IfOk result (λ kept. kept.value ≡ kept_as.Setup stage.now) }
    ensures read { OnOk result (stage.now.made ≢ None) }
{
    if !stage.is_read() {
        return Err(WRONG_OBJECT);
    }
    let Ok(copy) = stage.again(alloc) else {
        return Err(NO_MEMORY);
    };
    match Box::new(alloc, Kept::Setup(copy)) {
        Ok(kept) => Ok(kept),
        Err(_) => Err(NO_MEMORY),
    }
}

/// Makes an empty object the same setup, of files that were read, read anew from copies of their
/// bytes: what is made from one shares nothing with what is made from the other.
pub fn setup_share(copy: &mut Object, setup: &mut Object, alloc: Global) -> u32
    ensures setup { setup.new.held.held ≡ setup.old.held.held }
    ensures code { result ≢ NO_MEMORY
        → result ≡ share_code copy.old.held.held setup.old.held.held }
    ensures after { result ≢ NO_MEMORY
        → copy.new.held.held ≡ shared copy.old.held.held setup.old.held.held }
    ensures memory { result ≡ NO_MEMORY → copy.new.held.held ≡ copy.old.held.held }
{
    if !copy.is_empty() {
        return WRONG_OBJECT;
    }
    let Some(kept) = setup.take(alloc) else {
        return WRONG_OBJECT;
    };
    let made = match &*kept {
        Kept::Setup(stage) => again(stage, alloc),
        _ => Err(WRONG_OBJECT),
    };
    setup.put(kept);
    match made {
        Ok(kept) => {
            copy.put(kept);
            OK
        }
        Err(code) => code,
    }
}
