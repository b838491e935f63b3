//! Test of `admit`, which decides whether a quota of pages is enough for the objects that a task declares.
use cf_base::Settings;
use quota_model::{Admission, Need, admit};
use std::test::Fail;

// `admit` returns each of its four results, for the right cause. Pages have 512 bytes, and there are 8 proxies. A page
// has two slots for 176 bytes, and 8 bytes have another class. So `half`, three objects, needs two pages,
// and `small` one more. `No` has the number of the first malloc that is refused, from 1 on. The last two
// cases are tested before the quota. `half`, `small` and `many` are 12 objects, more than the proxies.
// And `large`, the entry with index 1, has 505 bytes, more than a page, though it declares no object.
#[test]
fn each_answer_comes_by_its_cause(rt: HostRuntime) -> Result<(), Fail> {
    let Ok(s) = Settings::check(3, 512, 1, 8) else {
        panic!(rt; "the settings are in range");
    };
    let half = Need {
        bytes: 176,
        count: 3,
    };
    let small = Need { bytes: 8, count: 1 };
    let many = Need { bytes: 8, count: 8 };
    let large = Need {
        bytes: 505,
        count: 0,
    };
    assert_eq!(rt; admit(&s, 0, &[]), Admission::Yes, "nothing is declared");
    assert_eq!(rt;
        admit(&s, 2, &[half]),
        Admission::Yes,
        "two pages hold three"
    );
    assert_eq!(rt;
        admit(&s, 2, &[half, small]),
        Admission::No { nth: 4 },
        "the fourth"
    );
    assert_eq!(rt; admit(&s, 3, &[half, small]), Admission::Yes, "three pages");
    assert_eq!(rt;
        admit(&s, 1, &[half]),
        Admission::No { nth: 3 },
        "one page holds two"
    );
    assert_eq!(rt;
        admit(&s, 2, &[half, small, many]),
        Admission::Proxies,
        "12 of 8"
    );
    assert_eq!(rt;
        admit(&s, 9, &[many, large]),
        Admission::Size { entry: 1 },
        "505 bytes"
    );
    Ok(())
}
