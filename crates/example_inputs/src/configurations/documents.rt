// A document, a line that ends it, and what reading it answers, a line `==` between two.
pub const DOCUMENTS: &str = r#"# nothing
=> missing Top 0 Signal
==
signal = 7
=> bad value Top 0 Signal
==
signal = ""
=> bad value Top 0 Signal
==
signal = "a,b"
=> bad value Top 0 Signal
==
signal = 'a"b'
=> bad value Top 0 Signal
==
signal = "123456789012345678901234567890123"
=> bad value Top 0 Signal
==
signal = "7"
hours = 0
=> missing Top 0 Start
==
signal = "7"
start = 2024-03-04
hours = 0
=> bad value Top 0 Start
==
signal = "7"
start = "2024-02-30T06"
=> bad value Top 0 Start
==
signal = "7"
start = "2024-03-04T24"
=> bad value Top 0 Start
==
signal = "7"
start = "2024-03-04T06"
=> missing Top 0 Hours
==
signal = "7"
start = "2024-03-04T06"
hours = 0
=> bad value Top 0 Hours
==
signal = "7"
start = "2024-03-04T06"
hours = 745
=> bad value Top 0 Hours
==
signal = "7"
start = "2024-03-04T06"
hours = 2.0
=> bad value Top 0 Hours
==
signal = "7"
start = "9999-12-31T23"
hours = 2
=> bad value Top 0 Hours
==
signal = "7"
start = "9999-12-31T23"
hours = 1
=> accepted
==
signal = "7"
start = "2024-03-04T06"
hours = 744
=> accepted
==
signal = "7"
start = "2024-03-04T06"
hours = 2
coordination = 1
=> bad value Top 0 Coordination
==
extra = 1
=> unknown Top 0 Other
==
signal = 
=> not toml
==
signal = "7"
signal = "8"
=> not toml
==
signal = "7"
start = "2024-03-04T06"
hours = 2
phase = []
=> accepted
==
signal = "7"
start = "2024-03-04T06"
hours = 2
phase = [1]
=> bad value Top 0 Phase
==
signal = "7"
start = "2024-03-04T06"
hours = 2
[phase]
=> bad value Top 0 Phase
==
signal = "7"
start = "2024-03-04T06"
hours = 2
ped = 3
=> bad value Top 0 Ped
==
signal = "7"
start = "2024-03-04T06"
hours = 2
overlap = 3
=> bad value Top 0 Overlap
==
signal = "7"
start = "2024-03-04T06"
hours = 2
preempt = 3
=> bad value Top 0 Preempt
==
signal = "7"
start = "2024-03-04T06"
hours = 2
conflict = 3
=> bad value Top 0 Conflict
==
signal = "7"
start = "2024-03-04T06"
hours = 2
allow = 3
=> bad value Top 0 Allow
==
signal = "7"
start = "2024-03-04T06"
hours = 2
floor = 3
=> bad value Top 0 Floor
==
signal = "7"
start = "2024-03-04T06"
hours = 2
interval = 3
=> bad value Top 0 Interval
==
signal = "7"
start = "2024-03-04T06"
hours = 2
approach = 3
=> bad value Top 0 Approach
==
signal = "7"
start = "2024-03-04T06"
hours = 2
approach = 3
ped = 3
=> bad value Top 0 Ped"#;
