//! The values of fields, and nodes of one name, which resolved files do not have. What is refused,
//! and what is skipped, is shown by recorded command lines in the crate `case_runs`.

use rule_traits::{Kind, Rules, SkippedList, type_rules};
use std::alloc::{AllocError, Global};
use std::test::Fail;
use yaml_lines::{Text, parse};

/// Writes names in brackets, with commas between them.
fn write_names(out: &mut String, names: &[Text]) -> Result<(), AllocError> {
    let mut before = " [";
    for name in names {
        let name = name.as_str();
        write!(out, "{before}{name}")?;
        before = ",";
    }
    if names.is_empty() {
        write!(out, "{before}")?;
    }
    write!(out, "]")
}

/// Writes numbers in brackets, with commas between them.
fn write_numbers(out: &mut String, numbers: &[u16]) -> Result<(), AllocError> {
    let mut before = " [";
    for number in numbers {
        write!(out, "{before}{number}")?;
        before = ",";
    }
    if numbers.is_empty() {
        write!(out, "{before}")?;
    }
    write!(out, "]")
}

/// Writes what a kind is: its hit points, its motion and whether it is a building.
fn write_body(out: &mut String, kind: &Kind) -> Result<(), AllocError> {
    if let Some(t) = &kind.health {
        let hp = t.hp;
        write!(out, " Health {hp}")?;
    }
    if let Some(t) = &kind.mobile {
        let (speed, turn) = (t.speed, t.turn);
        let (clear, road, rough, water) = (
            t.costs.clear,
            t.costs.road,
            t.costs.rough,
            t.costs.water,
        );
        write!(out, " Mobile {speed} {turn} {clear},{road},{rough},{water}")?;
    }
    if kind.building {
        write!(out, " Building")?;
    }
    Ok(())
}

/// Writes what a kind does with ore, how it shoots, and how far it sees.
fn write_work(out: &mut String, kind: &Kind) -> Result<(), AllocError> {
    if let Some(t) = &kind.harvester {
        let (capacity, load, unload) = (t.capacity, t.load_delay, t.unload_delay);
        write!(out, " Harvester {capacity} {load} {unload}")?;
    }
    if let Some(t) = &kind.refinery {
        let value = t.value;
        write!(out, " Refinery {value}")?;
    }
    if let Some(t) = &kind.armament {
        let (range, damage, spread, reload) = (t.range, t.damage, t.spread, t.reload);
        write!(out, " Armament {range} {damage} {spread} {reload}")?;
    }
    if let Some(t) = &kind.reveals {
        let range = t.range;
        write!(out, " RevealsShroud {range}")?;
    }
    Ok(())
}

/// Writes what a kind builds, and how it is built.
fn write_trade(out: &mut String, kind: &Kind) -> Result<(), AllocError> {
    if let Some(t) = &kind.production {
        write!(out, " Production")?;
        write_names(out, t.produces.as_slice())?;
    }
    if let Some(t) = &kind.buildable {
        let duration = t.duration;
        write!(out, " Buildable {duration}")?;
        write_names(out, t.queue.as_slice())?;
        write_numbers(out, t.needs.as_slice())?;
    }
    if let Some(t) = &kind.valued {
        let cost = t.cost;
        write!(out, " Valued {cost}")?;
    }
    Ok(())
}

/// A line for each kind with its traits, and for each skipped node with its line.
fn written(alloc: Global, rules: &Rules, skipped: &SkippedList) -> Result<String, AllocError> {
    let mut out = String::new(alloc);
    for kind in rules.kinds() {
        let name = kind.name.as_str();
        write!(out, "{name}")?;
        write_body(&mut out, kind)?;
        write_work(&mut out, kind)?;
        write_trade(&mut out, kind)?;
        write!(out, "\n")?;
    }
    for node in skipped.as_slice() {
        let (line, key) = (node.place.line, node.key.as_str());
        write!(out, "- {line} {key}\n")?;
    }
    Ok(out)
}

/// The kinds and skipped nodes of a rule text, or after `! ` the fault's cause and its line.
fn outcome(alloc: Global, text: &str) -> Result<String, AllocError> {
    let Ok(forest) = parse(alloc, 0, text.as_bytes()) else {
        return String::from_str(alloc, "?");
    };
    let fault = match type_rules(alloc, &forest) {
        Ok((rules, skipped)) => return written(alloc, &rules, &skipped),
        Err(fault) => fault,
    };
    let Some(place) = fault.place() else {
        return Err(AllocError);
    };
    let (cause, line) = (fault.cause(), place.line);
    format!(in alloc; "! {cause} {line}")
}

/// The least value of each field, the greatest, what is meant where it is not said, and values in
/// other spellings.
const VALUES: &str = "\
    least:\n\
    \tHealth:\n\
    \t\tHP: 1\n\
    \tMobile:\n\
    \t\tSpeed: 0\n\
    \t\tTurnSpeed: 0\n\
    \t\tClearCost: 0\n\
    \t\tRoadCost: 0\n\
    \t\tRoughCost: 0\n\
    \t\tWaterCost: 0\n\
    \tHarvester:\n\
    \t\tCapacity: 1\n\
    \t\tBaleLoadDelay: 0\n\
    \t\tBaleUnloadDelay: 0\n\
    \tRefinery:\n\
    \t\tBaleValue: 0\n\
    \tProduction:\n\
    \t\tProduces:\n\
    \tBuildable:\n\
    \t\tQueue:\n\
    \t\tBuildDuration: 0\n\
    \t\tNeeds:\n\
    \tValued:\n\
    \t\tCost: 0\n\
    \tArmament:\n\
    \t\tRange: 0\n\
    \t\tReload: 0\n\
    \tRevealsShroud:\n\
    \t\tRange: 0\n\
    most:\n\
    \tHealth:\n\
    \t\tHP: 1000000000\n\
    \tMobile:\n\
    \t\tSpeed: 63c1023\n\
    \t\tTurnSpeed: 1023\n\
    \t\tClearCost: 10\n\
    \t\tRoadCost: 10\n\
    \t\tRoughCost: 10\n\
    \t\tWaterCost: 10\n\
    \tHarvester:\n\
    \t\tCapacity: 10000\n\
    \t\tBaleLoadDelay: 65535\n\
    \t\tBaleUnloadDelay: 65535\n\
    \tRefinery:\n\
    \t\tBaleValue: 10000\n\
    \tProduction:\n\
    \t\tProduces: b, a ,,b\n\
    \tBuildable:\n\
    \t\tQueue: a b,C\n\
    \t\tBuildDuration: 65535\n\
    \t\tNeeds: most,,least\n\
    \tValued:\n\
    \t\tCost: 2000000000\n\
    \tArmament:\n\
    \t\tRange: 128c0\n\
    \t\tDamage: 1000000\n\
    \t\tSpread: 1000000\n\
    \t\tReload: 65535\n\
    \tRevealsShroud:\n\
    \t\tRange: 131072\n\
    unsaid:\n\
    \tHealth:\n\
    \tMobile: 3\n\
    \tBuilding:\n\
    \tHarvester:\n\
    \tRefinery:\n\
    \tBuildable:\n\
    \tValued: x\n\
    \tArmament:\n\
    \tRevealsShroud: 7\n\
    spelled:\n\
    \tHealth@x@y:\n\
    \t\tHP: 0000000010\n\
    \tArmament:\n\
    \t\tRange: 4c768\n\
    \tRevealsShroud@far:\n\
    \t\tRange: 1c1\n\
    ";

const VALUED: &str = "\
    least Health 1 Mobile 0 0 0,0,0,0 Harvester 1 0 0 Refinery 0 Armament 0 0 0 0 \
    RevealsShroud 0 Production [] Buildable 0 [] [] Valued 0\n\
    most Health 1000000000 Mobile 65535 1023 10,10,10,10 Harvester 10000 65535 65535 \
    Refinery 10000 Armament 131072 1000000 1000000 65535 RevealsShroud 131072 Production \
    [b,a,b] Buildable 65535 [a b,C] [1,0] Valued 2000000000\n\
    unsaid Health 1 Mobile 1 512 2,1,4,0 Building Harvester 28 4 4 Refinery 25 \
    Armament 1536 0 0 25 RevealsShroud 5120 Buildable 100 [] [] Valued 0\n\
    spelled Health 10 Armament 4864 0 0 25 RevealsShroud 1025\n\
    ";

/// Kinds, traits and fields that stand twice.
const TWICE: &str = "\
    A:\n\
    \tBuilding:\n\
    \tBuilding:\n\
    A:\n\
    \tX:\n\
    \tHealth:\n\
    \t\tHP: 5\n\
    \t\tHP: 6\n\
    \tX:\n\
    B:\n\
    \tBuildable:\n\
    \t\tNeeds: B,A\n\
    ";

const TWICE_READ: &str = "\
    A Building\n\
    A Health 6\n\
    B Buildable 100 [] [2,0]\n\
    - 3 Building\n\
    - 5 X\n\
    - 9 X\n\
    ";

#[test]
fn values_of_fields(rt: HostRuntime) -> Result<(), Fail> {
    let found = outcome(rt.alloc(), VALUES)?;
    assert_eq!(rt; found.as_str(), VALUED);
    let found = outcome(rt.alloc(), TWICE)?;
    assert_eq!(rt; found.as_str(), TWICE_READ);
    let found = outcome(rt.alloc(), "A:\n\tHealth:\n\t\tHP: 5\n\t\tHP: x\n")?;
    assert_eq!(rt; found.as_str(), "! BadValue 4");
    Ok(())
}
