//! Tables of command lines.

/// Command lines, the arguments of which `|` separates, each with the request that it names or with
/// `refused`. A line that begins with `#` says what the next ones show.
pub(crate) const LINES: &str = "\
## Words that name no command, or help or a version.
# The command.
 => refused
dance => refused
dri|--script|d => refused
drills|--script|d => refused
Drill|--script|d => refused
YAML|a => refused
y|a => refused
chec|a => refused
 drill|--script|d => refused
-|drill|--script|d => refused
--|drill|--script|d => refused
-- => refused
lockstep|drill|--script|d => refused
dance|yaml|a => refused
# An option before the command.
--script|d|drill => refused
--script=d|drill => refused
--script|d => refused
-x|yaml|a => refused
# There is no help and no version.
--help => refused
-h => refused
help => refused
help|drill => refused
--version => refused
-V => refused
version => refused
drill|--help => refused
drill|--script|d|-h => refused
yaml|--help => refused
yaml|a|-h => refused
check|--version => refused
check|-V|a => refused
## Words after a command that are refused.
# `drill`: its option once, with one value.
drill => refused
drill|--script => refused
drill|--script|d|--script|d => refused
drill|--script|d|--script|e => refused
drill|--script=d|--script=e => refused
drill|--script=d|--script => refused
# Values that begin with `-`.
drill|--script|-d => refused
drill|--script|-1 => refused
drill|--script|--d => refused
drill|--script|-- => refused
drill|--script|--|d => refused
# Names, other options and other spellings of the option.
drill|d => refused
drill| => refused
drill|- => refused
drill|--|--script|d => refused
drill|--script|d|--recor=r => refused
drill|--scrip|d => refused
drill|--SCRIPT|d => refused
drill|-script|d => refused
drill|-s|d => refused
drill|---script|d => refused
drill|--=d => refused
drill|script=d => refused
drill|--map|m|r => refused
local => refused
local|--script|s|--script|s => refused
drill|--script|d|--map => refused
# `yaml` and `check`: names, in their order, and no option.
yaml => refused
yaml|-- => refused
yaml|-x => refused
yaml|a|-1 => refused
yaml|a|--names|b => refused
yaml|--names=a => refused
yaml|a|--map=m|b => refused
check => refused
check|--script|d => refused
## Words with the request that they name.
# There is no help and no version.
yaml|help => yaml <help>
# `drill`: its option once, with one value.
drill|--script|d => drill <d>
local|--script|s => local <s>
local|b|--map=--|a|--script=|b|--|--map => local <> map <--> <b> <a> <b> <--map>
drill|--script=d => drill <d>
drill|--script=d=e => drill <d=e>
drill|--script=--script => drill <--script>
drill|--script= => drill <>
drill|--script==d => drill <=d>
drill|--script| => drill <>
drill|--script|a b => drill <a b>
drill|--script|drill => drill <drill>
drill|--script|help => drill <help>
drill|--script|= => drill <=>
drill|--script|\u{e9} => drill <\u{e9}>
drill|--script=\u{2212}d => drill <\u{2212}d>
# Values that begin with `-`.
drill|--script|- => drill <->
drill|--script=- => drill <->
drill|--script=-d => drill <-d>
drill|--script=-- => drill <-->
# Names, other options and other spellings of the option.
drill|--script|d|-- => drill <d>
drill|--script|d|e => drill <d> <e>
drill|e|--script|d => drill <d> <e>
drill|--script|d|--|e => drill <d> <e>
drill|--script|d|--map|m => drill <d> map <m>
drill|b|--map=--|a|--script=s|b => drill <s> map <--> <b> <a> <b>
drill|--script|d|--|--map|m|--record => drill <d> <--map> <m> <--record>
drill|--map=|--script=| => drill <> map <> <>
# `yaml` and `check`: names, in their order, and no option.
yaml|a => yaml <a>
yaml|b|a|b => yaml <b> <a> <b>
yaml| => yaml <>
yaml|-| => yaml <-> <>
yaml|--|-x|a => yaml <-x> <a>
yaml|a|--|b|--|--map => yaml <a> <b> <--> <--map>
yaml|yaml|check => yaml <yaml> <check>
check|r.yaml => check <r.yaml>
check|r|-|--|--map|m => check <r> <-> <--map> <m>
## Words after `make` that are refused.
make => refused
make|7 => refused
make|--number => refused
make|--number|7|--number|7 => refused
make|--number=7|--number=8 => refused
make|--number|7|r => refused
make|--number|7|--|r => refused
make|--number|7|--map|m => refused
make|--number|7|--script|d => refused
make|--numbe|7 => refused
make|-n|7 => refused
# A number has a digit, and nothing but digits after its sign.
make|--number| => refused
make|--number= => refused
make|--number|+ => refused
make|--number=- => refused
make|--number|- => refused
make|--number|1  => refused
make|--number|1_000 => refused
make|--number|0x7 => refused
make|--number|7.0 => refused
make|--number=++7 => refused
# It is 0 to 4,294,967,295, and a word of its own does not begin with `-`.
make|--number|4294967296 => refused
make|--number=-7 => refused
make|--number|-0 => refused
## Words after `make` with the request that they name.
make|--number|7 => make 7
make|--number=7 => make 7
make|--number|0 => make 0
make|--number|007 => make 7
make|--number|+7 => make 7
make|--number=+007 => make 7
make|--number=-0 => make 0
make|--number|4294967295 => make 4294967295
make|--number|+0000000004294967295 => make 4294967295
make|--number|00000000000000000000000000 => make 0
make|--number|7|-- => make 7
## Words after `check` and `route` that are refused.
# `check`: the map at most once, and rules.
check|--map|m => refused
check|--map => refused
check|r|--map => refused
check|--map|m|--map|m|r => refused
check|--map|-m|r => refused
check|--script|m|r => refused
# `route`: each option once, and rules.
route => refused
route|r => refused
route|--kind|k|--from|0,0|--to|1,1|r => refused
route|--map|m|--from|0,0|--to|1,1|r => refused
route|--map|m|--kind|k|--to|1,1|r => refused
route|--map|m|--kind|k|--from|0,0|r => refused
route|--map|m|--kind|k|--from|0,0|--to|1,1 => refused
route|--map|m|--kind|k|--kind|k|--from|0,0|--to|1,1|r => refused
route|--map|m|--kind|k|--from|0,0|--to|1,1|--to|1,1|r => refused
route|--map|m|--kind|-k|--from|0,0|--to|1,1|r => refused
# Cells.
route|--map|m|--kind|k|--from|0|--to|1,1|r => refused
route|--map|m|--kind|k|--from|0,0|--to|1,1,1|r => refused
route|--map|m|--kind|k|--from|256,0|--to|1,1|r => refused
route|--map|m|--kind|k|--from|0,0|--to|1,256|r => refused
route|--map|m|--kind|k|--from|0,0|--to||r => refused
route|--map|m|--kind|k|--from|0;0|--to|1,1|r => refused
route|--map|m|--kind|k|--from=-1,0|--to|1,1|r => refused
route|--map|m|--kind|k|--from|0,0|--to|+1,1|r => refused
## Words after `check` and `route` with the request that they name.
check|--map|m|r => check map <m> <r>
check|r|--map=m|s => check map <m> <r> <s>
check|--map=|r => check map <> <r>
check|r|--|--map|m => check <r> <--map> <m>
route|--map|m|--kind|k|--from|0,1|--to|2,255|r => route <m> <k> 0,1 2,255 <r>
route|a|--to=7,8|b|--from=5,6|--kind=|--map=--|c => route <--> <> 5,6 7,8 <a> <b> <c>
route|--from|1,2|--to|1,2|--map|from|--kind|to|--|--map => route <from> <to> 1,2 1,2 <--map>
route|--map|-|--kind|-|--from|0,0|--to|0,0|- => route <-> <-> 0,0 0,0 <->
# A cell has blanks round its numbers or none, and its numbers may have leading zeros.
route|--map|m|--kind|k|--from| 3 , 4 |--to|003,0000000004|r => route <m> <k> 3,4 3,4 <r>
route|--map|m|--kind|k|--from|\t3,4|--to|3,\r4|r => route <m> <k> 3,4 3,4 <r>
route|--map|m|--kind|k x|--from|0,0|--to|0,0|route => route <m> <k x> 0,0 0,0 <route>
## Words that would read or write a replay, and that are refused.
# `drill`: a record at most once, with a value.
drill|--record|r => refused
drill|--record|r|d => refused
drill|--record|--script=d => refused
drill|--script|d|--record => refused
drill|--script|d|--record|r|--record|r => refused
drill|--script|d|--record=r|--record=s => refused
drill|--script|d|--record|-r => refused
drill|--script|d|--file|f => refused
drill|--script|d|--to|t => refused
local|--script|s|--record|r => refused
# `replay`: a file once, and no option of another command.
replay => refused
replay|f => refused
replay|--file => refused
replay|--script|s => refused
replay|--file|f|--script|s => refused
replay|--file|f|--file|f => refused
replay|--file|-f => refused
replay|--file|f|--to|t => refused
replay|--file|f|--record|r => refused
replay|--file|f|--map|m|--map|m => refused
replay|--map|m|r => refused
replay|--|--file|f => refused
replays|--file|f => refused
# `migrate`: a file and another one to write, each once.
migrate => refused
migrate|--file|f => refused
migrate|--to|t => refused
migrate|--file|f|t => refused
migrate|--file|f|--to => refused
migrate|--file|f|--to|-t => refused
migrate|--file|f|--to|t|--to|t => refused
migrate|--file|f|--file|f|--to|t => refused
migrate|--file|f|--|--to|t => refused
migrate|--script|f|--to|t => refused
migrate|--file|f|--to|t|--record|r => refused
## Words that read or write a replay, with the request that they name.
drill|--script|d|--record|r => drill record <r> <d>
drill|--record|r|--script|d => drill record <r> <d>
drill|a|--record=--map|--map=m|b|--script=d => drill record <--map> <d> map <m> <a> <b>
drill|--script|d|--record= => drill record <> <d>
drill|--script|d|--record|- => drill record <-> <d>
drill|--script|d|--|--record|r => drill <d> <--record> <r>
replay|--file|f => replay <f>
replay|--file=|r => replay <> <r>
replay|--file|f|--map|m => replay <f> map <m>
replay|--file|replay|migrate => replay <replay> <migrate>
replay|b|--map=--|a|--file=f|b|--|--file => replay <f> map <--> <b> <a> <b> <--file>
migrate|--file|f|--to|t => migrate to <t> <f>
migrate|--to|t|--file|f => migrate to <t> <f>
migrate|--file|f|--to= => migrate to <> <f>
migrate|--to=|--file=| => migrate to <> <> <>
migrate|--file|f|--to|f => migrate to <f> <f>
migrate|a|--to=--file|b|--map|m|--file|f|--|--to|c \
    => migrate to <--file> <f> map <m> <a> <b> <--to> <c>
## Words that would serve a match or play at a server, and that are refused.
# `serve`: an address and a number of clients, each once.
serve => refused
serve|--at|a => refused
serve|--clients|2 => refused
serve|a|--clients|2 => refused
serve|--at|a|--clients => refused
serve|--at|-a|--clients|2 => refused
serve|--at|a|--at|a|--clients|2 => refused
serve|--at|a|--clients|2|--clients|2 => refused
serve|--at|a|--clients|2|--script|s => refused
serve|--at|a|--clients|2|--seed|1|--seed|1 => refused
serve|--at|a|--clients|2|--map => refused
serve|--at|a|--clients|2|--number|1 => refused
serves|--at|a|--clients|2 => refused
# There are 1 to 16 clients, a lag of 1 to 64, and a seed of 0 to 4,294,967,295.
serve|--at|a|--clients|0 => refused
serve|--at|a|--clients|17 => refused
serve|--at|a|--clients|two => refused
serve|--at|a|--clients=-1 => refused
serve|--at|a|--clients| => refused
serve|--at|a|--clients|4294967297 => refused
serve|--at|a|--clients|2|--lag|0 => refused
serve|--at|a|--clients|2|--lag|65 => refused
serve|--at|a|--clients|2|--lag=-2 => refused
serve|--at|a|--clients|2|--lag => refused
serve|--at|a|--clients|2|--seed|4294967296 => refused
serve|--at|a|--clients|2|--seed=-1 => refused
# `play`: an address and a script, each once.
play => refused
play|--at|a => refused
play|--script|s => refused
play|--at|a|s => refused
play|--at|a|--script|s|--script|s => refused
play|--at|a|--at|a|--script|s => refused
play|--at|a|--script|s|--clients|2 => refused
play|--at|a|--file|s => refused
play|--at|a|--script|-s => refused
## Words that serve a match or play at a server, with the request that they name.
serve|--at|a|--clients|1 => serve <a> 1 2 1
serve|--clients|16|--at|a => serve <a> 16 2 1
serve|--at=|--clients=3 => serve <> 3 2 1
serve|--at|a|--clients|+7 => serve <a> 7 2 1
serve|--at|a|--clients|0016 => serve <a> 16 2 1
serve|--at|a|--clients|2|--lag|1 => serve <a> 2 1 1
serve|--at|a|--clients|2|--lag|64 => serve <a> 2 64 1
serve|--at|a|--clients|2|--seed|0 => serve <a> 2 2 0
serve|--at|a|--clients|2|--seed=-0 => serve <a> 2 2 0
serve|--at|a|--clients|2|--seed|4294967295 => serve <a> 2 2 4294967295
serve|r|--seed|9|--map=m|--lag=5|--clients|4|s|--at|h:1|--|--at \
    => serve <h:1> 4 5 9 map <m> <r> <s> <--at>
serve|--at|-|--clients|2|- => serve <-> 2 2 1 <->
play|--at|a|--script|s => play at <a> <s>
play|--script|s|--at|a => play at <a> <s>
play|--script=|--at= => play at <> <>
play|--at|a|--script|s|--map|m => play at <a> <s> map <m>
play|r|--at=--map|q|--map|m|--script|s|--|--at|a => play at <--map> <s> map <m> <r> <q> <--at> <a>
play|--at|-|--script|-|play => play at <-> <-> <play>
play|--at|a|--script|s|serve => play at <a> <s> <serve>
## Words that would save a replay, go on from a save, show worlds or compare, and that are refused.
# `save`: a replay, a number of frames and a file to write, each once.
save => refused
save|--file|f|--frames|1 => refused
save|--file|f|--to|t => refused
save|--frames|1|--to|t => refused
save|f|--frames|1|--to|t => refused
save|--file|f|--frames|1|--file|f|--to|t => refused
save|--file|f|--frames|1|--frames|1|--to|t => refused
save|--file|f|--frames|1|--to|t|--to|t => refused
save|--file|f|--frames|--to|t => refused
save|--file|f|--frames| |--to|t => refused
save|--file|f|--frames|1.0|--to|t => refused
save|--file|f|--frames=-1|--to|t => refused
save|--file|f|--frames|-0|--to|t => refused
save|--file|f|--frames|4294967296|--to|t => refused
save|--file|f|--client|1|--to|t => refused
save|--file|f|--frames|1|--to|t|--save|s => refused
save|--file|f|--frames|1|--to|-t => refused
saves|--file|f|--frames|1|--to|t => refused
# `continue`: a save and a replay, each once.
continue => refused
continue|--file|f => refused
continue|--save|s => refused
continue|--save|s|f => refused
continue|--save=s|--map|m => refused
continue|k|--save=s|--file|f|--save=s => refused
continue|--save|s|--file|f|--file|f => refused
continue|--save|s|--file|f|--map|m|--map|m => refused
continue|--save|--file|f => refused
continue|--save|s|--file|f|--to|t => refused
continue|--save|s|--file|f|--frames|1 => refused
# `view`: a replay and a client, each once.
view => refused
view|--file|f => refused
view|--file|f|--map=m => refused
view|k|--client|65537 => refused
view|--file|f|0 => refused
view|--file|f|--client => refused
view|--file|f|--client|0|--client|0 => refused
view|--file|f|--client|0|--file|f => refused
view|--file|f|--client|1e1 => refused
view|--file=f|k|--client=1.0 => refused
view|--client=-1|--map|m|--file|f => refused
view|--client=4294967296|--file|f => refused
view|--client=18446744073709551616|--file|f => refused
view|--file|f|--client|0|--frames|1 => refused
# `worlds`: a replay, and each number at most once; worlds are at least one frame apart.
worlds => refused
worlds|f => refused
worlds|--from|0|--to|1|--every|1 => refused
worlds|--file|f|--file|f => refused
worlds|--file|f|--from|1|--from|1 => refused
worlds|--file|f|--to|1|--to|1 => refused
worlds|--file|f|--every|1|--every|1 => refused
worlds|--file|f|--every|0 => refused
worlds|--file|f|--every=-0 => refused
worlds|--file|f|--every|+00 => refused
worlds|--file|f|--every|4294967296 => refused
worlds|--file|f|--from|4294967296 => refused
worlds|--file|f|--from=-1 => refused
worlds|--file|f|--to|4294967296 => refused
worlds|--file|f|--to=-1 => refused
worlds|--file|f|--to|end => refused
worlds|--file|f|--to => refused
worlds|--file|f|--every= => refused
worlds|--file|f|--frames|1 => refused
world|--file|f => refused
# `compare`: two files, each once.
compare => refused
compare|f|g => refused
compare|--file|f => refused
compare|--with|g => refused
compare|--file|f|g => refused
compare|--file|f|--with => refused
compare|--file|--with|g => refused
compare|--file|f|--with|g|--file|f => refused
compare|--file|f|--with|g|--with|g => refused
compare|--file|f|--with|g|--map|m|--map|m => refused
compare|--file|f|--with|-g => refused
compare|--file|f|--save|g => refused
compare|--file|f|--with|g|--to|t => refused
compares|--file|f|--with|g => refused
## Words that save a replay, go on from a save, show worlds or compare, with the request that they
## name.
save|--file|f|--frames|1|--to|t => save 1 to <t> <f>
save|--to=t|--frames=0|--file=f => save 0 to <t> <f>
save|--file|f|--frames|+7|--to|f => save 7 to <f> <f>
save|--file|f|--frames=-0|--to= => save 0 to <> <f>
save|--file=|--frames|004294967295|--to|- => save 4294967295 to <-> <>
save|a|--map=m|--to=--file|b|--frames|256|--file|f|--|--to|c \
    => save 256 to <--file> <f> map <m> <a> <b> <--to> <c>
continue|--save|s|--file|f => continue from <s> <f>
continue|--file=s|--save=f => continue from <f> <s>
continue|=|k|--save|w|--file=r => continue from <w> <r> <=> <k>
continue|--save=--file|--file=|a|--map|m|--|--save => continue from <--file> <> map <m> <a> <--save>
view|--file|f|--client|0 => view 0 <f>
view|--client=15|--file=f => view 15 <f>
view|--file|f|--client|+1 => view 1 <f>
view|--file|f|--client|4294967295 => view 4294967295 <f>
view|k|--file|f|--map=m|--client|007|l|--|--client => view 7 <f> map <m> <k> <l> <--client>
worlds|--file|f => worlds 0 end 1 <f>
worlds|--file=f|--from=0|--every=1 => worlds 0 end 1 <f>
worlds|--file|f|--to|0 => worlds 0 0 1 <f>
worlds|--file|f|--from|9|--to|3 => worlds 9 3 1 <f>
worlds|--file|f|--every|64 => worlds 0 end 64 <f>
worlds|--every|+0002|--to|+9|--from=-0|--file|f => worlds 0 9 2 <f>
worlds|--file|f|--from|4294967295|--to|4294967295|--every|4294967295 \
    => worlds 4294967295 4294967295 4294967295 <f>
worlds|a|--to=3|--map|m|b|--file=--to|--|--every|0 \
    => worlds 0 3 1 <--to> map <m> <a> <b> <--every> <0>
compare|--file|f|--with|g => compare with <g> <f>
compare|--with=f|--file=g => compare with <f> <g>
compare|--file|f|--with|f => compare with <f> <f>
compare|=|k|--with|b|--file=a => compare with <b> <a> <=> <k>
compare|--with=--file|--file=|a|--map|m|--|--with => compare with <--file> <> map <m> <a> <--with>";

/// The same of the commands `local` and `play`, with bots, and `datagrams`.
pub(crate) const LINES_OF_BOTS_AND_DATAGRAMS: &str = "\
## Words that are refused.
# `local`: the number of bots once, 0 to 15.
local|--bots|1 => refused
local|--script|s|--bots => refused
local|--script|s|--bots= => refused
local|--script|s|--bots|16 => refused
local|--bots|16|--script|s => refused
local|--bots=1024|--script|s|--map|m => refused
local|--script|s|--bots|4294967296 => refused
local|--script|s|--bots|1|--bots|1 => refused
local|--script|s|--bots|one => refused
local|--script|s|--bots|\u{661} => refused
local|--script|s|--bots|0x1 => refused
local|--script|s|--bots|1.0 => refused
local|--script|s|--bots=-1 => refused
local|--script|s|--bots|-1 => refused
local|--script|s|--bots|-0 => refused
local|--map=m|--bots|-00 => refused
# No other command has bots.
drill|--script|s|--bots|1 => refused
replay|--file|f|--bots|1 => refused
serve|--at|a|--clients|2|--bots|1 => refused
# `play`: `--script` alone, or `--bot` and `--frames` without it; a flag has no value.
play|--at|a|--bot => refused
play|--at|a|--frames|1 => refused
play|--bot|--frames|1 => refused
play|--at|a|--script|s|--bot => refused
play|--at|a|--script|s|--frames|1 => refused
play|--at|a|--script|s|--bot|--frames|1 => refused
play|--at|a|--bot|--bot|--frames|1 => refused
play|--at|a|--bot|--frames|1|--frames|1 => refused
play|--at|a|--bot=true|--frames|1 => refused
play|--at|a|--bot=|--frames|1 => refused
play|--at|a|--bot|--frames => refused
play|--at|a|--bot|--frames|262145 => refused
play|--at|a|--bot|--frames|-1 => refused
play|--at|a|--bot|--frames=-1 => refused
play|--at|a|--bot|--frames|x => refused
play|--at|a|--bots|1|--frames|1 => refused
play|--at|a|--|--bot|--frames|1 => refused
local|--script|s|--bot => refused
serve|--at|a|--clients|2|--bot => refused
# `datagrams`: a script once, no map and no name.
datagrams => refused
datagrams|k => refused
datagrams|--script => refused
datagrams|--script|-g => refused
datagrams|--script|g|--script|g => refused
datagrams|k|--script|g => refused
datagrams|--script|g|k => refused
datagrams|--script|g|--|k => refused
datagrams|--script|g|--map|m => refused
datagrams|--script|g|--bots|1 => refused
datagrams|--file|g => refused
datagram|--script|g => refused
Datagrams|--script|g => refused
## Words with the request that they name.
local|--script|s|--bots|0 => local <s>
local|k|--bots|0|--script|s => local <s> <k>
local|--script|s|--bots=-0 => local <s>
local|--bots|1|--script|s => local bots 1 <s>
local|--map|m|--script|s|--bots=1|k => local bots 1 <s> map <m> <k>
local|k|--bots=2|--script=s => local bots 2 <s> <k>
local|--bots|8|k|--script|s => local bots 8 <s> <k>
local|--script|s|--bots|15 => local bots 15 <s>
local|--bots|007|--script|s => local bots 7 <s>
local|--bots|+3|--script|s => local bots 3 <s>
local|--script|s|--bots=000000000000000 => local <s>
local|--map|m|--bots|1|--script=s => local bots 1 <s> map <m>
local|--script|s|--bots=1|--map=m => local bots 1 <s> map <m>
local|--script|s|--|--bots|1 => local <s> <--bots> <1>
local|--script=--bots|--bots=9|9 => local bots 9 <--bots> <9>
play|--at|a|--bot|--frames|1 => play bot 1 at <a>
play|--frames=0|--bot|--at=a => play bot 0 at <a>
play|--at|a|--bot|--frames|262144 => play bot 262144 at <a>
play|--at|a|--bot|--frames=+007 => play bot 7 at <a>
play|r|--at|--bot|--frames|1 => refused
play|r|--at=--bot|--bot|q|--map|m|--frames|9|--|--script \
    => play bot 9 at <--bot> map <m> <r> <q> <--script>
play|--bot|true|--at|a|--frames|2 => play bot 2 at <a> <true>
datagrams|--script|g => datagrams <g>
datagrams|--script=g => datagrams <g>
datagrams|--script=-g => datagrams <-g>
datagrams|--script= => datagrams <>
datagrams|--script|- => datagrams <->
datagrams|--script|g|-- => datagrams <g>
datagrams|--script|datagrams => datagrams <datagrams>";

/// Commands, each with the request without a name and with what it begins with before 64 names.
pub(crate) const COMMANDS_OF_NAMES: &str = "\
yaml => refused => yaml
check => refused => check
route|--map|m|--kind|k|--from|0,0|--to|1,1 => refused => route <m> <k> 0,0 1,1
drill|--script|s|--record|r => drill record <r> <s> => drill record <r> <s>
local|--script|s => local <s> => local <s>
local|--script|s|--bots|3 => local bots 3 <s> => local bots 3 <s>
play|--at|a|--bot|--frames|2 => play bot 2 at <a> => play bot 2 at <a>
replay|--file|f => replay <f> => replay <f>
migrate|--file|f|--to|t => migrate to <t> <f> => migrate to <t> <f>
play|--at|a|--script|s => play at <a> <s> => play at <a> <s>
serve|--at|a|--clients|2 => serve <a> 2 2 1 => serve <a> 2 2 1
save|--file|f|--frames|1|--to|t => save 1 to <t> <f> => save 1 to <t> <f>
continue|--save|s|--file|f => continue from <s> <f> => continue from <s> <f>
view|--file|f|--client|0 => view 0 <f> => view 0 <f>
worlds|--file|f => worlds 0 end 1 <f> => worlds 0 end 1 <f>
compare|--file|f|--with|g => compare with <g> <f> => compare with <g> <f>";

/// The same of the log, the clocks, the ports and the record of `serve`, and of the log of `play`.
pub(crate) const LINES_OF_SERVERS: &str = "\
## Words that are refused.
# Clocks of 1 to 86,400 seconds.
serve|--at|a|--clients|1|--patience|0 => refused
serve|--at|a|--clients|1|--patience|86401 => refused
serve|--at|a|--clients|1|--patience=-1 => refused
serve|--at|a|--clients|1|--patience => refused
serve|--at|a|--clients|1|--patience|1.5 => refused
serve|--at|a|--clients|1|--patience|2s => refused
serve|--at|a|--clients|1|--patience|1|--patience|1 => refused
serve|--at|a|--clients|1|--lobby|0 => refused
serve|--at|a|--clients|1|--lobby|86401 => refused
serve|--at|a|--clients|1|--lobby|4294967297 => refused
serve|--at|a|--clients|1|--lobby= => refused
serve|--at|a|--clients|1|--lobby|1|--lobby|2 => refused
# Ports of 1 to 65,535, the lower one first, and room for the clients, at every address.
serve|--at|udp:a|--clients|1|--udp-ports|7071 => refused
serve|--at|udp:a|--clients|1|--udp-ports|7071- => refused
serve|--at|udp:a|--clients|1|--udp-ports=-7071 => refused
serve|--at|udp:a|--clients|1|--udp-ports|7071-7072-7073 => refused
serve|--at|udp:a|--clients|1|--udp-ports|7071:7072 => refused
serve|--at|udp:a|--clients|1|--udp-ports| 7071-7072 => refused
serve|--at|udp:a|--clients|1|--udp-ports|7071 - 7072 => refused
serve|--at|udp:a|--clients|1|--udp-ports|+7071-7072 => refused
serve|--at|udp:a|--clients|1|--udp-ports|7072-7071 => refused
serve|--at|udp:a|--clients|1|--udp-ports|0-7071 => refused
serve|--at|udp:a|--clients|1|--udp-ports|0-0 => refused
serve|--at|udp:a|--clients|1|--udp-ports|7071-65536 => refused
serve|--at|udp:a|--clients|1|--udp-ports|7071-00000007072 => refused
serve|--at|udp:a|--clients|1|--udp-ports|7071-4294974367 => refused
serve|--at|udp:a|--clients|3|--udp-ports|7071-7072 => refused
serve|--at|a:7070|--clients|3|--udp-ports|7071-7072 => refused
serve|--at|a|--clients|16|--udp-ports|1-15 => refused
serve|--at|a|--clients|1|--udp-ports|1-2|--udp-ports|1-2 => refused
serve|--at|a|--clients|1|--udp-ports => refused
serve|--at|a|--clients|1|--udp_ports|1-2 => refused
# A flag once, and without a value.
serve|--at|a|--clients|1|--quiet|--quiet => refused
serve|--at|a|--clients|1|--quiet=true => refused
serve|--at|a|--clients|1|--quiet= => refused
serve|--at|a|--clients|1|-q => refused
play|--at|a|--script|s|--quiet|--quiet => refused
play|--at|a|--script|s|--quiet=true => refused
play|--quiet|--at|a => refused
drill|--script|d|--quiet => refused
local|--script|s|--quiet => refused
# A record once, with a value.
serve|--at|a|--clients|1|--record => refused
serve|--at|a|--clients|1|--record|-r => refused
serve|--at|a|--clients|1|--record|r|--record|s => refused
# No such option of `play`.
play|--at|a|--script|s|--record|r => refused
play|--at|a|--script|s|--patience|1 => refused
play|--at|a|--script|s|--lobby|1 => refused
play|--at|a|--script|s|--udp-ports|1-2 => refused
## Words with the request that they name.
serve|--at|a|--clients|1|--patience|1 => serve <a> 1 2 1 patience 1
serve|--at|a|--clients|1|--patience|86400 => serve <a> 1 2 1 patience 86400
serve|--at|a|--clients|1|--patience=+007 => serve <a> 1 2 1 patience 7
serve|--at|a|--clients|1|--lobby|1 => serve <a> 1 2 1 lobby 1
serve|--lobby=86400|--at|a|--clients|1 => serve <a> 1 2 1 lobby 86400
serve|--at|a|--clients|1|--lobby|3|--patience|4 => serve <a> 1 2 1 patience 4 lobby 3
serve|--at|udp:a|--clients|1|--udp-ports|7071-7071 => serve <udp:a> 1 2 1 ports 7071-7071
serve|--at|udp:a|--clients|3|--udp-ports|7071-7073 => serve <udp:a> 3 2 1 ports 7071-7073
serve|--at|a:1|--clients|3|--udp-ports=7071-7073 => serve <a:1> 3 2 1 ports 7071-7073
serve|--at|a|--clients|16|--udp-ports|1-16 => serve <a> 16 2 1 ports 1-16
serve|--at|a|--clients|16|--udp-ports|1-65535 => serve <a> 16 2 1 ports 1-65535
serve|--at|a|--clients|1|--udp-ports|65535-65535 => serve <a> 1 2 1 ports 65535-65535
serve|--at|a|--clients|1|--udp-ports|007-0000000008 => serve <a> 1 2 1 ports 7-8
serve|--at|a|--clients|1|--quiet => serve <a> 1 2 1 quiet
serve|--at|a|--clients|1|--quiet|r => serve <a> 1 2 1 quiet <r>
serve|--at|a|--clients|1|--record|out => serve <a> 1 2 1 record <out>
serve|--at|a|--clients|1|--record= => serve <a> 1 2 1 record <>
serve|--at|a|--clients|1|--record=--quiet => serve <a> 1 2 1 record <--quiet>
serve|--at|a|--clients|1|--|--record|--quiet => serve <a> 1 2 1 <--record> <--quiet>
serve|r|--quiet|--record|f|--udp-ports|5-9|--patience|2|--map|m|--lobby|3|--seed|4|--lag|6\
|--clients|5|--at|h \
    => serve <h> 5 6 4 quiet patience 2 lobby 3 ports 5-9 record <f> map <m> <r>
play|--at|a|--script|s|--quiet => play quiet at <a> <s>
play|--quiet|--at|a|--script|s|r => play quiet at <a> <s> <r>
play|--at|a|--bot|--quiet|--frames|3 => play quiet bot 3 at <a>
play|--at|a|--script|s|--|--quiet => play at <a> <s> <--quiet>
";

/// Words, and what they say of the log, the clocks and the ports: nothing where they are refused, and
/// nothing but that of `serve` and `play`.
pub(crate) static OPTIONS: [(&str, &str); 12] = [
    ("serve|--at|a|--clients|2", ""),
    ("serve|--at|a|--clients|2|--quiet", " quiet"),
    ("serve|--at|a|--clients|2|--patience|9", " patience 9"),
    ("serve|--at|a|--clients|2|--lobby|9", " lobby 9"),
    ("serve|--at|a|--clients|2|--udp-ports|8-9", " ports 8-9"),
    (
        "serve|--lobby|3|--at|a|--udp-ports|8-9|--quiet|--clients|2|--patience|7|--record|r",
        " quiet patience 7 lobby 3 ports 8-9",
    ),
    ("serve|--at|a|--clients|3|--quiet|--udp-ports|8-9", ""),
    ("serve|--at|a|--quiet", ""),
    ("play|--at|a|--script|s", ""),
    ("play|--at|a|--quiet|--script|s", " quiet"),
    ("play|--at|a|--quiet|--bot|--frames|1", " quiet"),
    ("drill|--script|d|r|--|--quiet", ""),
];
