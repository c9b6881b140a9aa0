//! The text of the bank workload.
ghost use Rattle.std.specs.Prelude.{◌≡◌, ◌≤◌, ◌++◌, ◌∷◌, [], codes, map, IfOk, OnOk};
ghost use Rattle.std.specs.Fmt.{decimal};
ghost use Rattle.std.specs.List.{range_with_len};
ghost use Rattle.tmf_model.specs.Config.{IsWithin};
ghost use Rattle.tmf_script.specs.Bank.{account, teller, written_line, written_lines, head_lines, put_account_line, opening_lines, transfer_lines, worker_lines, bank_text};

use itoa::Buffer;
use std::alloc::{AllocError, Global};

/// The text of the bank workload: a script of four workers, with ten accounts and a teller each. A worker
/// puts what they hold, and makes `n` transfers, 1 to 4,095, each a transaction of three operations.
#[tactic(auto, unfolding(crate::specs::Bank::bank_text))]
pub fn bank_text(alloc: Global, n: u32) -> Result<Vec<u8>, AllocError>
    requires { IsWithin 1 4095 n }
    ensures { IfOk result (λ text. text.items ≡ bank_text n) }
{
    let mut text = Vec::new(alloc);
    add_head(&mut text)?;
    add_worker(&mut text, 1, n)?;
    add_worker(&mut text, 2, n)?;
    add_worker(&mut text, 3, n)?;
    add_worker(&mut text, 4, n)?;
    text.extend_from_slice(b"end\nrecover\nlist ACCT\nlist TELLER\n")?;
    Ok(text)
}

/// Adds the lines in front of the workers.
fn add_head(text: &mut Vec<u8>) -> Result<(), AllocError>
    ensures { OnOk result (text.new.items ≡ text.old.items ++ written_lines head_lines) }
{
    text.extend_from_slice(b"trail AUX1\ntrail AUX2\n")?;
    text.extend_from_slice(b"volume $DATA1 AUX1\nvolume $DATA2 AUX2\n")?;
    text.extend_from_slice(b"file ACCT $DATA1 16\nfile TELLER $DATA2 4\n")?;
    text.extend_from_slice(b"format\nrun\n")?;
    Ok(())
}

/// Adds the lines of a worker.
fn add_worker(text: &mut Vec<u8>, worker: u8, n: u32) -> Result<(), AllocError>
    requires worker { worker ≤ 9 }
    requires few { n ≤ 4095 }
    ensures { OnOk result (text.new.items ≡ text.old.items ++ written_lines (worker_lines n worker)) }
{
    add_opening(text, worker)?;
    for i in 0..n {
        add_transfer(text, worker, i + 1)?;
    }
    Ok(())
}

/// Adds a worker's first transaction.
fn add_opening(text: &mut Vec<u8>, worker: u8) -> Result<(), AllocError>
    requires { worker ≤ 9 }
    ensures { OnOk result (text.new.items ≡ text.old.items ++ written_lines (opening_lines worker)) }
{
    text.extend_from_slice(b"worker\nbegin\n")?;
    add_puts(text, worker)?;
    text.extend_from_slice(b"put TELLER ")?;
    add_teller(text, worker)?;
    text.extend_from_slice(b" 0\ncommit\n")?;
    Ok(())
}

/// Adds the lines that put what the accounts of a worker hold.
fn add_puts(text: &mut Vec<u8>, worker: u8) -> Result<(), AllocError>
    requires { worker ≤ 9 }
    ensures { OnOk result (text.new.items ≡ text.old.items ++ written_lines (map (put_account_line worker) (range_with_len 0 10))) }
{
    for number in 0..10 {
        text.extend_from_slice(b"put ACCT ")?;
        add_account(text, worker, number)?;
        text.extend_from_slice(b" 1000\n")?;
    }
    Ok(())
}

/// Adds one transfer of a worker.
fn add_transfer(text: &mut Vec<u8>, worker: u8, i: u32) -> Result<(), AllocError>
    requires worker { worker ≤ 9 }
    requires few { i ≤ 4095 }
    ensures { OnOk result (text.new.items ≡ text.old.items ++ written_lines (transfer_lines worker i)) }
{
    let amount = 1 + i % 100;
    text.extend_from_slice(b"begin\n")?;
    add_change(text, (worker, (i % 10) as u8), b"-", amount)?;
    add_change(text, (worker, ((7 * i + 3) % 10) as u8), b"", amount)?;
    text.extend_from_slice(b"add TELLER ")?;
    add_teller(text, worker)?;
    text.extend_from_slice(b" 1\ncommit\n")?;
    Ok(())
}

/// Adds the line that adds an amount, with this sign, to a worker's account.
fn add_change(text: &mut Vec<u8>, of: (u8, u8), sign: &[u8], amount: u32) -> Result<(), AllocError>
    requires { (of.0 ≤ 9) × (of.1 ≤ 9) }
    ensures { OnOk result (text.new.items
        ≡ text.old.items ++ written_line (codes "add" ∷ codes "ACCT" ∷ account of.0 of.1 ∷ (sign.now ++ decimal amount) ∷ [])) }
{
    text.extend_from_slice(b"add ACCT ")?;
    add_account(text, of.0, of.1)?;
    text.extend_from_slice(b" ")?;
    text.extend_from_slice(sign)?;
    text.extend_from_slice(Buffer::new().format(amount).as_bytes())?;
    text.extend_from_slice(b"\n")?;
    Ok(())
}

/// Adds the key of a worker's account.
fn add_account(text: &mut Vec<u8>, worker: u8, number: u8) -> Result<(), AllocError>
    requires { (worker ≤ 9) × (number ≤ 9) }
    ensures { OnOk result (text.new.items ≡ text.old.items ++ account worker number) }
{
    text.extend_from_slice(&[b'A', b'0' + worker, b'0' + number])?;
    Ok(())
}

/// Adds the key of a worker's teller.
fn add_teller(text: &mut Vec<u8>, worker: u8) -> Result<(), AllocError>
    requires { worker ≤ 9 }
    ensures { OnOk result (text.new.items ≡ text.old.items ++ teller worker) }
{
    text.extend_from_slice(&[b'T', b'0' + worker])?;
    Ok(())
}
