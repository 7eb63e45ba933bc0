// Words, and the tree that they make or the refusal. A letter is a type: `i` int, `n` unsigned, `c` char, `h` short, `l` long, `m`
// unsigned long, `v` void, `x y z` structures; behind it `k` is const, `*` a pointer, a digit an array, `f` a function of an
// `int`, `g` a variadic one.
pub const TABLE: &str = "\
:c V => <c :c>
:ik V => <i :ik>
:i3 V => <i* :i3>
@if V => <f* @f>
:x V => :x
#5 V => 5i
\"abc V => <c* \"c4>
U7 => 7n
C => X7
Y => \"c1048576
Z => X10 size
Pig => X9 printf
Qig => @g
:i* :c [ => ([]4 i <i* :i*> <c :c>)
:c :i* [ => ([]4 i <c :c> <i* :i*>)
:i3 #1 [ => ([]4 i <i* :i3> 1i)
:v* #1 [ => X7
:y* #1 [ => X7
:i :i [ => X7
:if* #1 [ => X7
@if :c c1 => (call i <f* @f> <i :c>)
@if c0 => X7
@if :c :c c2 => X7
@ig c0 => X7
@ig :c :h c2 => (call i <g* @g> <i :c> <i :h>)
@ig :c \"a c2 => (call i <g* @g> <i :c> <c* \"c2>)
@ig :c :x c2 => X7
@if :i* c1 => X7
:i :i c1 => X7
:if* :i c1 => (call i <f* :f*> <i :i>)
@ikf #1 c1 => (call i <f* @f> 1i)
:x .n => (.4 c3 :x)
:xk .m => (. ik :xk)
:xk .n => (.4 ck3 :xk)
:x .r => (.8 hk :x)
:x .q => X7
:y .m => X7
:x* .m => X7
:x* Mn => (->4 c3 <x* :x*>)
:x* Mn V => <c* (->4 c3 <x* :x*>)>
:xk* Mm => (-> ik <xk* :xk*>)
:y* Mm => X7
:x Mm => X7
:z :z = .m V => <i (. i (=4 z :z :z))>
:i :x :x ? .n V => (.4 c3 (? x <i :i> :x :x))
:i s+ => (++1 i :i)
:i* s< => (x++4 i* :i*)
:c s> => (x--1 c :c)
:x* s- => (--12 x* :x*)
:ik s+ => X7
:v* s+ => X7
#1 s+ => X7
:i u& => (addr i* :i)
:i3 u& => (addr i3* :i3)
@if u& => (addr f* @f)
\"ab u& => (addr c3* \"c3)
#1 u& => X7
:i ur => X7
:i* u* => (ind i <i* :i*>)
@if u* => (ind f <f* @f>)
:i0* u* => (ind i0 <i0* :i0*>)
:v* u* => X7
:y* u* => X7
:i u* => X7
:c u- => (neg i <i :c>)
:n u~ => (~ n <n :n>)
:l u+ => (pos l <l :l>)
:c u! => (! i <c :c>)
:i* u! => (! i <i* :i*>)
:x u! => X7
:i* u- => X7
:i3 S => 12n
\"abc S => 4n
Tx => 12n
Ty => X7
Tif => X7
Tv => X7
Ti0 => X7
On => 4n
Oq => X7
:i (c => (cast c <i :i>)
:i (ik => (cast i <i :i>)
:i (v => (cast v <i :i>)
:x (v => (cast v :x)
#0 (i* => (cast i* 0i)
#1 #1 b- (i* => (cast i* (- i 1i 1i))
#1 (i* => X9 ptrint
:i* (i => X9 ptrint
:i* (c* => (cast c* <i* :i*>)
:if* (i* => X9 funptr
:i* (if* => X9 funptr
:if* (vf* => (cast f* <f* :f*>)
:i (x => X7
:x (i => X7
:i (i3 => X7
:c :h b+ => (+ i <i :c> <i :h>)
:n :l b* => (* m <m :n> <m :l>)
:i :i b% => (% i <i :i> <i :i>)
:c :n b< => (< i <n :c> <n :n>)
:c :l bs => (<< i <i :c> <l :l>)
:i* :c b+ => (+4 i* <i* :i*> <c :c>)
:c :i* b+ => (+4 i* <c :c> <i* :i*>)
:v* #1 b+ => X7
:x :x b+ => X7
:i* :i b* => X7
:c :i* b- => X7
:i* :c b- => (-4 i* <i* :i*> <c :c>)
:i* :ik* b- => (diff4 i <i* :i*> <ik* :ik*>)
:i* :c* b- => X7
:v* :v* b< => (< i <v* :v*> <v* :v*>)
:if* :if* b< => X7
:i* :ik* bg => (>= i <i* :i*> <ik* :ik*>)
:i* :v* b< => X7
:i* :v* be => (== i <i* :i*> <v* :v*>)
:i* #0 bn => (!= i <i* :i*> <i* 0i>)
#0 :i* be => (== i <i* 0i> <i* :i*>)
#1 :i* be => X7
:i* :c* be => X7
:if* #0 (v* be => (== i <f* :f*> (cast v* 0i))
:if* :v* be => X7
:i* :i ba => (&& i <i* :i*> <i :i>)
:i :i bo => (|| i <i :i> <i :i>)
:x :i bo => X7
:c :xk , => (, x <c :c> :xk)
:i :c :n ? => (? n <i :i> <n :c> <n :n>)
:i :i* #0 ? => (? i* <i :i> <i* :i*> <i* 0i>)
:i :i* #0 (v* ? => (? i* <i :i> <i* :i*> <i* (cast v* 0i)>)
:i :ik* :v* ? => (? vk* <i :i> <vk* :ik*> <vk* :v*>)
:i :i* :ik* ? => (? ik* <i :i> <ik* :i*> <ik* :ik*>)
:i :i0* :i3* ? => (? i3* <i :i> <i3* :i0*> <i3* :i3*>)
:i :i3* :i0* ? => (? i3* <i :i> <i3* :i3*> <i3* :i0*>)
:i :i* :c* ? => X7
:i :i* #1 ? => X7
:i :x :xk ? => (? x <i :i> :x :xk)
:i :x :z ? => X7
:x :i :i ? => X7
:i :i (v :i (v ? => (? v <i :i> (cast v <i :i>) (cast v <i :i>))
:c :i = => (= c :c <c :i>)
:i :i = => (= i :i <i :i>)
:ik* :i* = => (= ik* :ik* <ik* :i*>)
:i* :ik* = => X7
:v* :i* = => (= v* :v* <v* :i*>)
:i* :v* = => (= i* :i* <i* :v*>)
:v* :ik* = => X7
:v* :if* = => X7
:i* :n* = => X7
:i* #0 = => (= i* :i* <i* 0i>)
:i* #1 = => X7
:i :i* = => X7
:if* @if = => (= f* :f* <f* @f>)
:z :zk = => (=4 z :z :zk)
:x :x = => X7
:z :x = => X7
:i :x = => X7
:ik :i = => X7
#1 :i = => X7
:i3 :i = => X7
:c :i a+ => (+=i c :c <i :i>)
:c :n as => (<<=i c :c <n :n>)
:n :c a% => (%=n n :n <n :c>)
:i* :c a- => (-=4 i* :i* <c :c>)
:v* #1 a+ => X7
:ik #1 a+ => X7
:i* #1 a* => X7
:i :i* a+ => X7
:i :i a< => X7
:c An => <n :c>
#5 Ac => <c 5i>
#5 Ai => 5i
:z Az => :z
#0 Ai* => <i* 0i>
#5 #3 b- K => 2i
#2147483647 #1 b+ K => X8
#1 #0 b/ K => X8
#1 #40 bs K => X8
#0 #1 #0 b/ ba K => 0i
#1 U5 b- K => 4294967292n
#300 (c K => 44c
#1 #2 #3 ? K => 2i
#1 #2 :i ? K => X8
#1 u- #1 b< K => 1i
#5 u~ K => 4294967290i
U5 u! K => 0i
#1 #2 , K => X8
:i K => X8
$i u& L => 0n
$x .n V L => 4n
$i3 #2 b+ L => 8n
$i3 #2 [ u& L => 8n
$i3 #1 b- L => 4294967292n
$i3 :i b+ L => X8
$i u& (c* L => 0n
@if V L => 0l
\"ab #1 b+ L => 1m
#0 Ai* L => 0i
#0 (x* Mm u& L => 0i
#0 (x* Mn u& L => X8
:i u& L => X8
$i* V L => X8
";
