// Limits of sizes, of derivations and of frames.

/// A line for each: the text, and what the checker answers.
pub const SIZES: &str = "char a[1048576]; => taken
char a[1048577]; => X10 size 1
int a[262144]; => taken
int a[262145]; => X10 size 1
char a[1024][1024]; => taken
char a[1024][1025]; => X10 size 1
char a[1025][1024]; => X10 size 1
int *a[262144]; => taken
int *a[262145]; => X10 size 1
char a[4294967295]; => X10 size 1
int a[1073741825]; => X10 size 1
char (*p)[1048577]; => X10 size 1
typedef char T[1048577]; => X10 size 1
extern char a[1048577]; => X10 size 1
int a[sizeof(char[1048577])]; => X10 size 1
void f(char a[1048577]); => X10 size 1
void f(void) { char a[1048577]; } => X10 size 1
char@a@[1048577]; => X10 size 2
struct s { char a[1048575]; char b; }; => taken
struct s { char a[1048576]; char b; }; => X10 size 1
struct s { char a[1048573]; int b; }; => X10 size 1
struct s { char a[1048572]; int b; }; => taken
struct s { char a[600000]; }; struct t { struct s x, y; }; => X10 size 1
int@i;@struct s@{ char a[1048576]; char b; } x; => X10 size 3
struct s { char a[1024]; } a[1024]; => taken
struct s { char a[1024]; } a[1025]; => X10 size 1
int ********************************p; => taken
int *********************************p; => X10 height 1
int ****************p[1][1][1][1][1][1][1][1][1][1][1][1][1][1][1][1]; => taken
int *****************p[1][1][1][1][1][1][1][1][1][1][1][1][1][1][1][1]; => X10 height 1
typedef int ****************T; T ****************p; => taken
typedef int ****************T; T *****************p; => X10 height 1
typedef int ****************T;@T@*****************p; => X10 height 3
typedef int ********************************T; T a[2]; => X10 height 1
typedef int ********************************T; T f(void); => X10 height 1
void f(void) { char a[1048576], b[1048576], c[1048576], d[1048576], e[1048576]; } => taken
struct s { char a[1048576]; }; void f(void) { struct s a, b, c, d, e, f, g, h, i, j, k, l, m, n, o; } => taken
struct s { char a[1048576]; };@void@f(void) { struct s a, b, c, d, e, f, g, h, i, j, k, l, m, n, o, p; } => X10 frame 2
struct s { char a[1048576]; }; void f(void) { static struct s p; struct s a, b, c, d, e, f, g, h, i, j, k, l, m, n, o; } => taken";
