// What follows the base, a line that ends it, and what reading both answers, a line `==` between two.
pub const ENTRIES: &str = r#"
=> accepted
==
[[phase]]
lane = 1
=> unknown Phase 3 Other
==
[[phase]]
ring = 0
=> missing Phase 3 Number
==
[[phase]]
number = 17
=> bad value Phase 3 Number
==
[[phase]]
number = 8
side = 5
=> missing Phase 3 Ring
==
[[phase]]
number = 8
ring = 5
side = 5
=> bad value Phase 3 Ring
==
[[phase]]
number = 8
ring = 1
=> missing Phase 3 Side
==
[[phase]]
number = 2
ring = 1
side = 0
=> bad value Phase 3 Side
==
[[phase]]
number = 2
ring = 4
side = 4
=> repeated Phase 3 Number
==
[[ped]]
phase = 2
=> unknown Ped 0 Other
==
[[ped]]

=> missing Ped 0 Number
==
[[ped]]
number = 3
=> bad value Ped 0 Number
==
[[ped]]
number = 2
[[ped]]
number = 2
=> repeated Ped 1 Number
==
[[overlap]]

[[ped]]
number = 1
=> bad value Ped 0 Number
==
[[overlap]]
number = 1
parents = [2]
colour = 1
=> unknown Overlap 0 Other
==
[[overlap]]
parents = [2]
=> missing Overlap 0 Number
==
[[overlap]]
number = 0
parents = [2]
=> bad value Overlap 0 Number
==
[[overlap]]
number = 1
=> missing Overlap 0 Parents
==
[[overlap]]
number = 1
parents = 2
=> bad value Overlap 0 Parents
==
[[overlap]]
number = 1
parents = []
=> bad value Overlap 0 Parents
==
[[overlap]]
number = 1
parents = [2, 3]
=> bad value Overlap 0 Parents
==
[[overlap]]
number = 1
parents = [6, 2, 6]
=> bad value Overlap 0 Parents
==
[[overlap]]
number = 1
parents = [6, 4, 2]
=> accepted
==
[[overlap]]
number = 1
parents = [2]
[[overlap]]
number = 1
parents = [4]
=> repeated Overlap 1 Number
==
[[preempt]]
number = 1
input = 2
=> unknown Preempt 0 Other
==
[[preempt]]

=> missing Preempt 0 Number
==
[[preempt]]
number = "1"
=> bad value Preempt 0 Number
==
[[preempt]]
number = 1
[[preempt]]
number = 1
=> repeated Preempt 1 Number
==
[[conflict]]
a = 2
b = 4
c = 6
=> unknown Conflict 0 Other
==
[[conflict]]
b = 4
=> missing Conflict 0 A
==
[[conflict]]
a = 3
b = 4
=> bad value Conflict 0 A
==
[[conflict]]
a = 2
=> missing Conflict 0 B
==
[[conflict]]
a = 2
b = 2
=> bad value Conflict 0 B
==
[[conflict]]
a = 2
b = 8
=> bad value Conflict 0 B
==
[[conflict]]
a = 2
b = 4
[[conflict]]
a = 4
b = 2
=> repeated Conflict 1 A
==
[[allow]]
a = 2
b = 4
c = 6
=> unknown Allow 0 Other
==
[[allow]]

=> missing Allow 0 A
==
[[allow]]
a = 1
b = 4
=> bad value Allow 0 A
==
[[allow]]
a = 4
=> missing Allow 0 B
==
[[allow]]
a = 4
b = 4
=> bad value Allow 0 B
==
[[allow]]
a = 4
b = 2
[[conflict]]
a = 2
b = 4
=> bad value Allow 0 B
==
[[allow]]
a = 2
b = 4
[[allow]]
a = 2
b = 4
=> repeated Allow 1 A
==
[[floor]]
channel = "phase 2"
colour = "Green"
tenths = 1
age = 1
=> unknown Floor 0 Other
==
[[floor]]
colour = "Green"
tenths = 1
=> missing Floor 0 Channel
==
[[floor]]
channel = "phase 02"
colour = "Green"
tenths = 1
=> bad value Floor 0 Channel
==
[[floor]]
channel = "phase 3"
colour = "Green"
tenths = 1
=> bad value Floor 0 Channel
==
[[floor]]
channel = "detector 2"
colour = "On"
tenths = 1
=> bad value Floor 0 Channel
==
[[floor]]
channel = "phase 2"
tenths = 1
=> missing Floor 0 Colour
==
[[floor]]
channel = "phase 2"
colour = "Walk"
tenths = 1
=> bad value Floor 0 Colour
==
[[floor]]
channel = "phase 2"
colour = "Green"
=> missing Floor 0 Tenths
==
[[floor]]
channel = "phase 2"
colour = "Green"
tenths = 36001
=> bad value Floor 0 Tenths
==
[[floor]]
channel = "phase 2"
colour = "Green"
tenths = 50
[[floor]]
channel = "phase 2"
colour = "Green"
tenths = 60
=> repeated Floor 1 Channel
==
[[interval]]
channel = "phase 2"
colour = "Yellow"
at_least = 30
near = 1
=> unknown Interval 0 Other
==
[[interval]]
colour = "Yellow"
at_least = 30
=> missing Interval 0 Channel
==
[[interval]]
channel = 2
colour = "Yellow"
at_least = 30
=> bad value Interval 0 Channel
==
[[interval]]
channel = "phase 2"
at_least = 30
=> missing Interval 0 Colour
==
[[interval]]
channel = "phase 2"
colour = "yellow"
at_least = 30
=> bad value Interval 0 Colour
==
[[interval]]
channel = "phase 2"
colour = "Yellow"
=> missing Interval 0 AtLeast
==
[[interval]]
channel = "phase 2"
colour = "Yellow"
at_least = 0
at_most = 9
=> bad value Interval 0 AtLeast
==
[[interval]]
channel = "phase 2"
colour = "Yellow"
at_least = 30
at_most = 60
=> bad value Interval 0 AtMost
==
[[interval]]
channel = "phase 2"
colour = "Yellow"
at_most = 36001
=> bad value Interval 0 AtMost
==
[[interval]]
channel = "phase 2"
colour = "Yellow"
at_most = 60
[[interval]]
channel = "phase 2"
colour = "Yellow"
at_most = 60
=> accepted
==
[[approach]]
name = "A"
phase = 2
lanes = 3
=> unknown Approach 0 Other
==
[[approach]]
phase = 2
=> missing Approach 0 Name
==
[[approach]]
name = "north bound"
phase = 2
=> bad value Approach 0 Name
==
[[approach]]
name = "A"
=> missing Approach 0 Phase
==
[[approach]]
name = "A"
phase = 1
=> bad value Approach 0 Phase
==
[[approach]]
name = "A"
phase = 2
advance = 129
=> bad value Approach 0 Advance
==
[[approach]]
name = "A"
phase = 2
stop_bar = 0
=> bad value Approach 0 StopBar
==
[[approach]]
name = "A"
phase = 2
advance = 5
travel = 300
=> accepted
==
[[approach]]
name = "A"
phase = 2
advance = 5
travel = 301
high_num = 0
=> bad value Approach 0 Travel
==
[[approach]]
name = "A"
phase = 2
stop_bar = 5
travel = 0
=> bad value Approach 0 Travel
==
[[approach]]
name = "A"
phase = 2
high_den = 0
=> missing Approach 0 HighNum
==
[[approach]]
name = "A"
phase = 2
high_num = 3
=> missing Approach 0 HighDen
==
[[approach]]
name = "A"
phase = 2
high_num = 5
high_den = 4
=> bad value Approach 0 HighNum
==
[[approach]]
name = "A"
phase = 2
high_num = 5
high_den = 0
=> bad value Approach 0 HighNum
==
[[approach]]
name = "A"
phase = 2
high_num = 0
=> bad value Approach 0 HighNum
==
[[approach]]
name = "A"
phase = 2
high_num = 5
high_den = 1001
=> bad value Approach 0 HighDen
==
[[approach]]
name = "A"
phase = 2
high_num = 5
high_den = "9"
=> bad value Approach 0 HighDen
==
[[approach]]
name = "A"
phase = 2
[[approach]]
name = "A"
phase = 4
=> repeated Approach 1 Name"#;
