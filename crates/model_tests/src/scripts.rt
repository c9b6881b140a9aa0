//! Texts that are scripts, and texts that are none, worked out by hand.
use std::test::*;
use tmf_lines::{ScriptRefusal, read_script};
use tmf_script::Why;

const HEAD: &str = "trail AUX1\ntrail AUX2\nvolume $A AUX2\nvolume $B AUX1\nfile ACCT $A 4\n";

/// The line at which the text is refused, and why; none where it is a script.
fn refused(rt: &HostRuntime, text: &str) -> Result<Option<(u32, Why)>, Fail> {
    match read_script(rt.alloc(), text.as_bytes()) {
        Ok(_) => Ok(None),
        Err(ScriptRefusal::Refused { line, why }) => Ok(Some((line, why))),
        Err(ScriptRefusal::NoMemory) => Err(Fail::new("no memory")),
    }
}

#[test]
fn scripts(rt: HostRuntime) -> Result<(), Fail> {
    for text in [
        "",
        "format\nrecover\nlist ACCT\n",
        "run\nend\n",
        "run\nworker\nend\n\trun \nworker\nend\n",
        "run\nworker\nbegin 8\nput ACCT k v\nadd ACCT k -1\ndel ACCT k\nread ACCT k\nabort\nend\n",
        "recover kill 0\n",
        "format\r\n\r\n# run\r\nrecover\tkill 7\r\nrun kill 7\r\nend\r\n",
        "run kill 3\nworker\nworker\nend\n",
        "run\nworker\nbegin\ncommit\n# run\n worker \nworker\nend\n",
        "run\nworker\ncontrol $A\nend\n",
        "run\nworker\nbegin\ncommit\ndump $B\nend\nlose $A\n",
        "lose $A\nlose $B\nrecover\n",
        "lose $A\nrollforward $A\n",
        "rollforward $A kill 1\nrecover kill 1\nrun kill 1\nend\n",
    ] {
        let whole = format!(in rt.alloc(); "{HEAD}{text}")?;
        assert_eq!(rt; refused(&rt, &whole)?, None, "{text}");
    }
    Ok(())
}

#[test]
fn refused_texts(rt: HostRuntime) -> Result<(), Fail> {
    for (text, line, why) in [
        ("worker\n", 6, Why::WrongPlace),
        ("run\n", 7, Why::WrongPlace),
        ("recover kill 3\nrecover kill\n", 7, Why::WrongForm),
        ("lose $A\nlose $C\n", 7, Why::UnknownName),
        ("run\nworker\nworker\nformat\n", 9, Why::WrongPlace),
        (
            "run kill 3\nworker\nworker\ndump $C\nend\n",
            9,
            Why::UnknownName,
        ),
        ("control $A\n", 6, Why::WrongPlace),
        ("recover kill 3\nFormat\n", 7, Why::UnknownWord),
    ] {
        let whole = format!(in rt.alloc(); "{HEAD}{text}")?;
        assert_eq!(rt; refused(&rt, &whole)?, Some((line, why)), "{text}");
    }
    assert_eq!(rt; refused(&rt, "")?, Some((1, Why::NoVolume)));
    Ok(())
}
