//! A text of any size to measure with: a line of buffers.
//!
//! A line of N buffers has N components that communicate, so that the work on it grows with N alone.

ghost use Rattle.std.specs.Prelude.{◌≡◌, ◌≤◌, ◌-◌, ◌++◌, IfOk, OnOk};
ghost use Rattle.std.specs.List.{flat_map, range_with_len};
ghost use Rattle.std.specs.String.{string_bytes};
ghost use Rattle.lin_driver.specs.BufferLines as lines;

use data_theory::NoMemory;
use std::alloc::{AllocError, Global};

/// Adds the declaration of channel k.
fn add_channel(text: &mut String, k: u64) -> Result<(), AllocError>
    ensures { OnOk result (string_bytes text.new ≡ string_bytes text.old ++ lines.channel k) }
{
    writeln!(text, "  s_{k}, r_{k}, c_{k}: D;")
}

/// Adds the declarations of the channels between n buffers.
fn add_channels(text: &mut String, n: u64) -> Result<(), AllocError>
    ensures { OnOk result (string_bytes text.new ≡ string_bytes text.old ++ flat_map lines.channel (range_with_len 1 (n - 1))) }
{
    for k in 1..n {
        add_channel(text, k)?;
    }
    Ok(())
}

/// Adds the front of the definition of buffer k, which takes from buffer j.
fn add_taking(text: &mut String, j: u64, k: u64) -> Result<(), AllocError>
    ensures { OnOk result (string_bytes text.new ≡ string_bytes text.old ++ lines.taking j k) }
{
    write!(text, "  B_{k} = sum d: D . r_{j}(d)")
}

/// Adds what buffer k gives.
fn add_giving(text: &mut String, k: u64) -> Result<(), AllocError>
    ensures { OnOk result (string_bytes text.new ≡ string_bytes text.old ++ lines.giving k) }
{
    writeln!(text, " . s_{k}(d) . B_{k};")
}

/// Adds the definitions of the buffers between the first and the last one.
fn add_middle_buffers(text: &mut String, n: u64) -> Result<(), AllocError>
    ensures { OnOk result (string_bytes text.new ≡ string_bytes text.old ++ flat_map lines.middle_buffer (range_with_len 2 (n - 2))) }
{
    for k in 2..n {
        add_taking(text, k - 1, k)?;
        add_giving(text, k)?;
    }
    Ok(())
}

/// Adds the definition of the last one of n buffers.
fn add_last_buffer(text: &mut String, n: u64) -> Result<(), AllocError>
    requires { 2 ≤ n }
    ensures { OnOk result (string_bytes text.new ≡ string_bytes text.old ++ lines.last_buffer n) }
{
    add_taking(text, n - 1, n)?;
    writeln!(text, " . outp(d) . B_{n};")?;
    Ok(())
}

/// Adds the actions of the channels between n buffers to those that are allowed.
fn add_allowed(text: &mut String, n: u64) -> Result<(), AllocError>
    ensures { OnOk result (string_bytes text.new ≡ string_bytes text.old ++ flat_map lines.allowed (range_with_len 1 (n - 1))) }
{
    for k in 1..n {
        write!(text, ", c_{k}")?;
    }
    Ok(())
}

/// Adds the rules by which n buffers communicate behind the first rule.
fn add_rules(text: &mut String, n: u64) -> Result<(), AllocError>
    ensures { OnOk result (string_bytes text.new ≡ string_bytes text.old ++ flat_map lines.further_rule (range_with_len 2 (n - 2))) }
{
    for k in 2..n {
        write!(text, ", s_{k}|r_{k} -> c_{k}")?;
    }
    Ok(())
}

/// Adds n buffers side by side behind the first one.
fn add_buffers(text: &mut String, n: u64) -> Result<(), AllocError>
    ensures { OnOk result (string_bytes text.new ≡ string_bytes text.old ++ flat_map lines.beside (range_with_len 2 (n - 1))) }
{
    for k in 2..=n {
        write!(text, " || B_{k}")?;
    }
    Ok(())
}

/// Adds the communication of n buffers.
fn add_communicating(text: &mut String, n: u64) -> Result<(), AllocError>
    ensures { OnOk result (string_bytes text.new ≡ string_bytes text.old ++ lines.communicating n) }
{
    text.push_str("comm({s_1|r_1 -> c_1")?;
    add_rules(text, n)?;
    text.push_str("}, B_1")?;
    add_buffers(text, n)?;
    text.push_str(")")?;
    Ok(())
}

/// Adds the start of n buffers.
fn add_start(text: &mut String, n: u64) -> Result<(), AllocError>
    ensures { OnOk result (string_bytes text.new ≡ string_bytes text.old ++ lines.start n) }
{
    text.push_str("init allow({inp, outp")?;
    add_allowed(text, n)?;
    text.push_str("}, ")?;
    add_communicating(text, n)?;
    text.push_str(");\n")?;
    Ok(())
}

/// The text of n buffers in a line, from 2 to 40: each takes a datum from the one in front of it and gives it to the one behind it.
///
/// The first one takes what comes in, the last one gives it out, and each two neighbours communicate.
///
/// # Errors
///
/// No memory was left.
#[tactic(auto, unfolding(crate::specs::BufferLines::buffer_line))]
pub fn buffer_line(alloc: Global, n: u64) -> Result<Vec<u8>, NoMemory>
    requires { (2 ≤ n) × (n ≤ 40) }
    ensures written { IfOk result (λ text. text.items ≡ lines.buffer_line n) }
{
    let mut text = String::from_str(alloc, "sort D = struct d1 | d2;\nact inp, outp: D;\n")?;
    add_channels(&mut text, n)?;
    text.push_str("proc B_1 = sum d: D . inp(d) . s_1(d) . B_1;\n")?;
    add_middle_buffers(&mut text, n)?;
    add_last_buffer(&mut text, n)?;
    add_start(&mut text, n)?;
    Ok(text.into_bytes())
}
