use super::wide;
use crate::is_reserved_device;
use std::alloc::{AllocError, Global};
use std::test::Fail;

fn is_reserved(alloc: Global, path: &str) -> Result<bool, AllocError> {
    let path = wide(alloc, path)?;
    Ok(is_reserved_device(path.as_slice()))
}

#[test]
fn knows_each_device(rt: HostRuntime) -> Result<(), Fail> {
    let devices =
        "CON prn aUx nUL COM0 com1 Com2 cOM3 coM4 COm5 CoM6 cOm7 com8 COM9 com¹ COM² Com³ \
                   LPT0 lpt1 Lpt2 lPT3 lpT4 LPt5 LpT6 lPt7 lpt8 LPT9 lpt¹ LPT² Lpt³";
    let places = [
        ("", "", true),
        ("", ".", true),
        ("a\\", ".b.c", true),
        ("/", " .b/.//", true),
        ("", "x", false),
        ("", "/x", false),
    ];
    for device in devices.split_whitespace() {
        for (before, after, reserved) in places {
            let path = format!(in rt.alloc(); "{before}{device}{after}")?;
            assert_eq!(rt; is_reserved(rt.alloc(), path.as_str())?, reserved, "{path}");
        }
    }
    Ok(())
}

#[test]
fn drops_white_space(rt: HostRuntime) -> Result<(), Fail> {
    let spaces = [
        9, 10, 11, 12, 13, 32, 133, 160, 5760, 8192, 8193, 8194, 8195, 8196, 8197, 8198, 8199,
        8200, 8201, 8202, 8232, 8233, 8239, 8287, 12288,
    ];
    for space in spaces {
        let mut path = wide(rt.alloc(), "nul")?;
        path.push(space)?;
        assert!(rt; is_reserved_device(path.as_slice()), "{space}");
        path.push(8203)?;
        assert!(rt; !is_reserved_device(path.as_slice()), "{space}");
    }
    Ok(())
}

#[test]
fn tells_near_misses(rt: HostRuntime) -> Result<(), Fail> {
    for path in ["a/nul.txt", "COM¹ ", "nul/.", "..\\./aux", "con.."] {
        assert!(rt; is_reserved(rt.alloc(), path)?, "{path}");
    }
    let misses = "CONS .. . / COM10 COM LPT COM⁴ COM.1 nul/.. .con /con/s con_a cón";
    for path in misses.split_whitespace() {
        assert!(rt; !is_reserved(rt.alloc(), path)?, "{path}");
    }
    Ok(())
}
