// Operators with two and three operands, assignments and casts (ANSI 3.3.4 to 3.3.17).

/// A line for each: the text, and what the checker answers.
pub const OPERATORS: &str = "i * c => taken
u / l => taken
i / 0 => taken
2147483647 + 1 => taken
1 << 32 => taken
i % 3 => taken
1 << ul => taken
c >> h => taken
i & j => taken
i ^ E5 => taken
u | ul => taken
p * 2 => X7 1
2 * p => X7 1
x / 1 => X7 1
1 / x => X7 1
p % 2 => X7 1
i % p => X7 1
i % x => X7 1
p << 1 => X7 1
1 << p => X7 1
f >> 1 => X7 1
a & 1 => X7 1
1 & a => X7 1
p ^ p => X7 1
p | 1 => X7 1
i | v => X7 1
\"a\" | 1 => X7 1
g() * 1 => X7 1
1 * g() => X7 1
i + j => taken
p + 1 => taken
1 + p => taken
a + i => taken
q + E5 => taken
y + 1 => taken
pa + 1 => taken
pp + 1 => taken
pc + c => taken
\"abc\" + 1 => taken
p + p => X7 1
a + a => X7 1
v + 1 => X7 1
1 + v => X7 1
v + v => X7 1
z + 1 => X7 1
po + 1 => X7 1
f + 1 => X7 1
1 + f => X7 1
0 + f => X7 1
fp + 1 => X7 1
x + 1 => X7 1
1 + x => X7 1
p + x => X7 1
g() + 1 => X7 1
i - j => taken
p - 1 => taken
p - 0 => taken
p - p => taken
a - p => taken
pc - p => taken
p - cp => taken
p - &en => taken
y - cy => taken
as - y => taken
pa - pa => taken
aa - pa => taken
aa[0] - p => taken
pp - pp => taken
q - qc => taken
q - \"a\" => taken
1 - p => X7 1
0 - p => X7 1
p - q => X7 1
q - uq => X7 1
p - pu => X7 1
p - pl => X7 1
p - pp => X7 1
aa - p => X7 1
v - v => X7 1
v - 1 => X7 1
p - v => X7 1
z - z => X7 1
po - po => X7 1
f - f => X7 1
fp - fp => X7 1
x - x => X7 1
x - 1 => X7 1
i < j => taken
c <= ul => taken
p < p => taken
p >= pc => taken
p < cp => taken
a < p => taken
v < v => taken
v < vc => taken
z < z => taken
y > cy => taken
po < po => taken
po < pa => taken
p < q => X7 1
p < 0 => X7 1
0 < p => X7 1
p < (void *)0 => X7 1
p < v => X7 1
v > p => X7 1
p < pu => X7 1
p < i => X7 1
i < p => X7 1
f < f => X7 1
fp < fp => X7 1
gp >= gp => X7 1
x < x => X7 1
g() < 1 => X7 1
i == j => taken
p == p => taken
p == 0 => taken
0 != p => taken
p == 0L => taken
p == 0u => taken
p == 1 - 1 => taken
p == '\\0' => taken
p == E0 => taken
p == (int)0 => taken
p == (void *)0 => taken
(void *)0 == p => taken
p == v => taken
v != p => taken
p == pc => taken
pc == v => taken
p == vc => taken
v == vc => taken
v == 0 => taken
a == p => taken
a == 0 => taken
pa == aa => taken
po == pa => taken
y == cy => taken
z == 0 => taken
z == v => taken
f == f => taken
f == fp => taken
fp == 0 => taken
0 == f => taken
fp == (void *)0 => taken
fp == (void *const)0 => taken
fp == (int (*)(int))0 => taken
\"a\" == \"a\" => taken
p == 1 => X7 1
p == -1 => X7 1
p == i => X7 1
i == p => X7 1
p == ci * 0 => X7 1
p == (0, 0) => X7 1
p == q => X7 1
p == pu => X7 1
pp == p => X7 1
pp == ppc => X7 1
y == p => X7 1
z == y => X7 1
fp == gp => X7 1
fp == v => X7 1
v == f => X7 1
f == p => X7 1
fp == p => X7 1
fp == (const void *)0 => X7 1
fp == (void *)(void *)0 => X7 1
x == x => X7 1
x == 0 => X7 1
p == x => X7 1
g() == 0 => X7 1
i && p => taken
f || 0 => taken
a && x.m => taken
x && 1 => X7 1
1 && x => X7 1
1 || x => X7 1
g() && 1 => X7 1
i || g() => X7 1
i ? 1 : 2 => taken
p ? 1 : 0 => taken
i ? c : ul => taken
i ? p : 0 => taken
i ? 0 : p => taken
i ? p : pc => taken
i ? p : v => taken
i ? (void *)0 : p => taken
i ? a : p => taken
i ? aa : pa => taken
i ? x : x => taken
i ? x : cx => taken
i ? g() : g() => taken
i ? f : 0 => taken
i ? f : fp => taken
i ? (void)1 : g() => taken
x ? 1 : 2 => X7 1
g() ? 1 : 2 => X7 1
i ? p : 1 => X7 1
i ? p : i => X7 1
i ? p : q => X7 1
i ? p : pu => X7 1
i ? p : x => X7 1
i ? p : f => X7 1
i ? f : v => X7 1
i ? fp : gp => X7 1
i ? x : 1 => X7 1
i ? 1 : x => X7 1
i ? x : kx => X7 1
i ? g() : 1 => X7 1
i ? g() : x => X7 1
pc = i ? p : pc => taken
vc = i ? pc : v => taken
p = i ? v : p => taken
q = i ? v : p => taken
fp = i ? 0 : f => taken
fp = i ? (void *)0 : f => taken
p = i ? p : pc => X7 1
v = i ? p : vc => X7 1
p = i ? v : pc => X7 1
p = i ? 0 : pc => X7 1
q = i ? 0 : p => X7 1
q = i ? (void *)0 : p => X7 1
(i ? x : x) = x => X7 1
(i ? x : x).m = 1 => X7 1
(i, x).m = 1 => X7 1
(i, j) = 1 => X7 1
i, j => taken
g(), i => taken
i = (g(), 1) => taken
i = (1, g()) => X7 1
i, p * 2 => X7 1
i = c => taken
c = ul => taken
i = E5 => taken
en = 7 => taken
i = j = 1 => taken
p = p => taken
p = 0 => taken
p = 1 - 1 => taken
p = '\\0' => taken
p = E0 => taken
p = sizeof i - 4 => taken
p = (void *)0 => taken
p = v => taken
v = p => taken
pc = p => taken
vc = p => taken
vc = pc => taken
vc = v => taken
pcp = pp => taken
v = pp => taken
p = a => taken
p = aa[0] => taken
p = &en => taken
pc = &ci => taken
pc = ca => taken
pc = &cx.m => taken
p = &y->m => taken
qc = q => taken
q = \"a\" => taken
pa = aa => taken
pa = &a => taken
po = &a => taken
pa = po => taken
x = *y => taken
x = cx => taken
*y = x => taken
as[0] = as[1] => taken
x.m = 1 => taken
y->n = 2 => taken
kx.n = 1 => taken
dx.in.n = 1 => taken
dx.o = 1 => taken
un[0] = 1 => taken
*\"a\" = 'b' => taken
fp = f => taken
fp = &f => taken
fp = *f => taken
fp = 0 => taken
fp = (void *)0 => taken
z = 0 => taken
z = v => taken
v = z => taken
r = 1 => taken
b = 1 => taken
i = p => X7 1
p = i => X7 1
p = 1 => X7 1
p = (0, 0) => X7 1
p = q => X7 1
q = p => X7 1
q = uq => X7 1
p = pu => X7 1
p = pl => X7 1
p = pc => X7 1
p = &ci => X7 1
p = ca => X7 1
p = &cx.m => X7 1
p = &kx.m => X7 1
p = &cy->m => X7 1
q = qc => X7 1
p = vc => X7 1
v = pc => X7 1
v = vc => X7 1
ppc = pp => X7 1
pp = &pc => X7 1
y = cy => X7 1
z = y => X7 1
y = z => X7 1
fp = gp => X7 1
fp = v => X7 1
fp = p => X7 1
fp = (const void *)0 => X7 1
v = f => X7 1
v = fp => X7 1
p = f => X7 1
x = i => X7 1
x = 0 => X7 1
i = x => X7 1
x = kx => X7 1
x = y => X7 1
i = g() => X7 1
p = g() => X7 1
v = g() => X7 1
i = \"a\" => X7 1
i = (void)0 => X7 1
x.m = p => X7 1
a = p => X7 1
a = a => X7 1
f = f => X7 1
f = 0 => X7 1
1 = i => X7 1
E0 = 1 => X7 1
(i + 1) = j => X7 1
-i = 1 => X7 1
++i = 1 => X7 1
sizeof i = 1 => X7 1
f(1) = 2 => X7 1
g() = 1 => X7 1
\"a\" = \"b\" => X7 1
(x = x).m = 1 => X7 1
ci = 1 => X7 1
*pc = 1 => X7 1
cp = p => X7 1
ca[0] = 1 => X7 1
cx = x => X7 1
cx.m = 1 => X7 1
*cy = x => X7 1
cy->m = 1 => X7 1
kx = kx => X7 1
kx.m = 1 => X7 1
dx = dx => X7 1
dx.in = dx.in => X7 1
dx.in.m = 1 => X7 1
i += c => taken
c *= 2 => taken
c /= c => taken
u <<= l => taken
h >>= 1 => taken
i %= j => taken
i &= u => taken
i ^= 1 => taken
i |= E5 => taken
p += 1 => taken
p -= i => taken
q += c => taken
y += 1 => taken
pa += 1 => taken
p += p => X7 1
p -= p => X7 1
p *= 2 => X7 1
p /= 2 => X7 1
p %= 1 => X7 1
p <<= 1 => X7 1
p >>= 1 => X7 1
p &= 1 => X7 1
p ^= 1 => X7 1
p |= 1 => X7 1
i += p => X7 1
i -= p => X7 1
i *= p => X7 1
i <<= p => X7 1
i += x => X7 1
i += g() => X7 1
v += 1 => X7 1
z += 1 => X7 1
po += 1 => X7 1
fp += 1 => X7 1
f += 1 => X7 1
a += 1 => X7 1
x += 1 => X7 1
1 += 1 => X7 1
ci += 1 => X7 1
cp += 1 => X7 1
*pc += 1 => X7 1
p += x => X7 1
p += q => X7 1
(int)c => taken
(char)300 => taken
(long)i => taken
(const int)i => taken
(enum e)7 => taken
(unsigned)-1 => taken
(void)0 => taken
(void)x => taken
(void)g() => taken
(void)p => taken
(void)f => taken
(int *)q => taken
(int *)pc => taken
(void *)p => taken
(const void *)p => taken
(char *)v => taken
(char *)a => taken
(int (*)[3])a => taken
(int *const)p => taken
(struct t *)p => taken
(struct s *)z => taken
(S *)v => taken
(int *)0 => taken
(void *)0 => taken
(int *)(1 - 1) => taken
(int *)E0 => taken
(char *)(char)0 => taken
(int *)(sizeof(int) - 4) => taken
(void (*)(void))f => taken
(void (*)(void))fp => taken
(void (*)(void))0 => taken
(struct s)x => X7 1
(struct s)0 => X7 1
(int)x => X7 1
(int *)x => X7 1
(int[3])a => X7 1
(int(void))f => X7 1
(int)g() => X7 1
(int *)g() => X7 1
(int)p => X9 ptrint 1
(long)v => X9 ptrint 1
(char)a => X9 ptrint 1
(int)\"a\" => X9 ptrint 1
(unsigned)f => X9 ptrint 1
(unsigned long)&i => X9 ptrint 1
(int)(void *)0 => X9 ptrint 1
(int *)1 => X9 ptrint 1
(int *)i => X9 ptrint 1
(void *)-1 => X9 ptrint 1
(int *)ci => X9 ptrint 1
(int *)(i * 0) => X9 ptrint 1
(int *)(0, 0) => X9 ptrint 1
(int *)sizeof(int) => X9 ptrint 1
(void (*)(void))1 => X9 ptrint 1
i =@(int)@p => X9 ptrint 2
(int *)f => X9 funptr 1
(void *)f => X9 funptr 1
(void *)fp => X9 funptr 1
(char *)&f => X9 funptr 1
(void (*)(void))p => X9 funptr 1
(int (*)(int))v => X9 funptr 1
(void (*)(void))(void *)0 => X9 funptr 1
(int *)und => X6 1
1 = und => X6 1
i = und1 + und2 => X6 1
i =@und1@+ und2 => X6 2
p * 2 + und => X7 1
i@= p * 2 => X7 2
i =@p@* 2 => X7 2
i = 1 +@p * 2@+ und => X7 2
(@p) * 2 => X7 1
i +@(@p@) * 2 => X7 2
f(@i ? p@: q) => X7 2
i,@p =@1 => X7 2
a[@i[@j]] => X7 2
!@x => X7 1
sizeof(@x * 2) => X7 2
i ? f : g => X7 1
i ? f : (void *)0 => taken
i ? (void *)0 : 0 => taken
p = 1 ? 0 : 5 => taken
p = !1 => taken
p = 'a' - 97 => taken
p = 0 ? 0 : 5 => X7 1
p = i ? 0 : 0 => X7 1
p = 0 && i => X7 1
p = 1 / 0 => X7 1
p == (i ? 0 : 0) => X7 1
vc = i ? vc : 0 => taken
cy = i ? y : cy => taken
y = i ? y : cy => X7 1
fp = i ? f : fp => taken
g(), g() => taken";
