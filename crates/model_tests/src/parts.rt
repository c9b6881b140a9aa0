//! Tests of the names of parts, over a node of two trails and two volumes.
ghost use Rattle.std.specs.Prelude.{◌≡◌, length, IfOk};

use node_machine::part_name;
use std::alloc::Global;
use std::test::Fail;
use tmf_model::{Config, Name, Sequence, Volume};

/// Two trails A and B, with the volumes $D and $E.
fn config(alloc: Global) -> Result<Config, Fail>
    ensures trails { IfOk result (λ config. length config.trails ≡ 2) }
    ensures volumes { IfOk result (λ config. length config.volumes ≡ 2) }
{
    let (Ok(a), Ok(b)) = (Name::new(b"A"), Name::new(b"B")) else {
        return Err(Fail::new("no trail is named"));
    };
    let (Ok(d), Ok(e)) = (Name::new(b"$D"), Name::new(b"$E")) else {
        return Err(Fail::new("no volume is named"));
    };
    Ok(Config {
        trails: Sequence::new(vec![in alloc; a, b]?),
        volumes: Sequence::new(vec![in alloc;
            Volume { name: d, trail: 1 },
            Volume { name: e, trail: 2 },
        ]?),
        files: Sequence::new(Vec::new(alloc)),
        cache: 64,
        car_count: 64,
        car_holds: 0,
        roll: 256,
        steps: 1000,
    })
}

#[test]
fn parts_are_named(rt: HostRuntime) -> Result<(), Fail> {
    let config = config(rt.alloc())?;
    let table: [(u32, &'static str); 9] = [
        (0, "W1"),
        (15, "W16"),
        (16, "$D"),
        (17, "$E"),
        (24, "A"),
        (25, "B"),
        (28, "MAT"),
        (29, "DUMP$D"),
        (30, "DUMP$E"),
    ];
    for (part, want) in table {
        match part {
            0..18 | 24..26 | 28..31 => {
                let name = part_name(&config, part);
                assert!(rt; format!(in rt.alloc(); "{name}")?.as_bytes() == want.as_bytes());
            }
            _ => return Err(Fail::new("no such part")),
        }
    }
    Ok(())
}
