use super::wide;
use crate::numbers::{
    FILE_FLAG_BACKUP_SEMANTICS, FILE_FLAG_OPEN_REPARSE_POINT, GENERIC_READ, OPEN_ALWAYS,
    OPEN_EXISTING, SECURITY_SQOS_PRESENT,
};
use crate::{
    CreatePlan, FollowSymlinks, MAX_SYMLINK_EXPANSIONS, OpenOptions, Qos, create_file_at_plan,
    dir_options, get_access_mode, get_creation_mode, get_flags_and_attributes, maybe_dir,
    prepare_open_options_for_open,
};
use std::test::Fail;

#[test]
fn reads_options(rt: HostRuntime) {
    let mut options = OpenOptions::new();
    assert_eq!(rt; options.share_mode, 7);
    assert_eq!(rt; get_access_mode(&options), Err(87));
    options.read = true;
    assert_eq!(rt; get_creation_mode(&options), Ok(3));
    options.append = true;
    assert_eq!(rt; get_access_mode(&options), Ok(0x8012_0114));
    options.write = true;
    options.truncate = true;
    assert_eq!(rt; get_creation_mode(&options), Err(87));
    options.append = false;
    assert_eq!(rt; get_access_mode(&options), Ok(0xc000_0000));
    assert_eq!(rt; get_creation_mode(&options), Ok(5));
    assert_eq!(rt; MAX_SYMLINK_EXPANSIONS, 63);
}

#[test]
fn prepares_options(rt: HostRuntime) {
    let mut options = OpenOptions::new();
    options.write = true;
    options.truncate = true;
    options.maybe_dir = true;
    options.dsync = true;
    options.follow = FollowSymlinks::No;
    assert!(rt; prepare_open_options_for_open(&mut options));
    assert!(rt; !options.truncate);
    assert_eq!(rt; options.custom_flags, 0x8220_0000);
    assert_eq!(rt; options.share_mode, 3);

    let mut directory = dir_options();
    assert!(rt; directory.read && directory.dir_required);
    assert_eq!(rt;
        (directory.custom_flags, directory.share_mode),
        (0x200_0000, 3)
    );
    directory.attributes = 0x20;
    directory.create_new = true;
    assert_eq!(rt; get_flags_and_attributes(&directory), 0x220_0020);
    maybe_dir(&mut options);
    assert_eq!(rt; (options.custom_flags, options.share_mode), (0x200_0000, 3));
}

#[test]
fn plans_openings(rt: HostRuntime) -> Result<(), Fail> {
    let name = wide(rt.alloc(), "abc")?;
    let name = name.as_slice();
    let flags = FILE_FLAG_BACKUP_SEMANTICS;
    let plan = CreatePlan {
        desired_access: 0x8010_0080,
        object_attributes: 0,
        file_attributes: 0x80,
        share_mode: 7,
        create_disposition: 1,
        create_options: 0x4020,
        length: 6,
        qos: None,
    };
    let planned = create_file_at_plan(name, GENERIC_READ, 7, false, OPEN_EXISTING, flags, false);
    assert_eq!(rt; planned, Ok(plan));

    // A link that is opened itself and that a server at level 2 may act on.
    let flags = FILE_FLAG_OPEN_REPARSE_POINT | SECURITY_SQOS_PRESENT | 0x6_0000;
    let plan = CreatePlan {
        desired_access: 0x10_0080,
        object_attributes: 2,
        file_attributes: 0x16_0000,
        share_mode: 0,
        create_disposition: 3,
        create_options: 0x60_0060,
        length: 6,
        qos: Some(Qos {
            impersonation: 2,
            dynamic: true,
            effective_only: false,
        }),
    };
    assert_eq!(rt;
        create_file_at_plan(name, 0, 0, true, OPEN_ALWAYS, flags, false),
        Ok(plan)
    );
    assert_eq!(rt;
        create_file_at_plan(name, 0, 0, true, 6, flags, true),
        Err(50)
    );
    Ok(())
}
